// A law of the definition of a transcript.
ghost use Rattle.script.specs.Laws.{LinesGoOn};

// Has no work: its contract is the theorem that a fault ends its line and not the script, of every script and chip.
pub fn lines_go_on()
    ensures { LinesGoOn }
{}
