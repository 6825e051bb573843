// Laws of the definition of a script's lines and forms.
ghost use Rattle.script_forms.specs.Laws.{LinesAreTheScript, FormIsItsText, ColumnIsFirst};

// Has no work: its contract is the theorem that lines, forms and columns are what the words say, of every script and line.
pub fn grammar_holds()
    ensures lines { LinesAreTheScript }
    ensures text { FormIsItsText }
    ensures column { ColumnIsFirst }
{}
