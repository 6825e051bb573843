// A case as it stands in a file: its name on a line, its script up to the first '=' that ends a line, and its transcript.
ghost use Rattle.std.specs.Prelude.{◌≡◌, ℕ, List, MatchOption, ◌≢◌};
ghost use Rattle.cases.specs.Texts.{OneLine, case_text};

// Parts of the file's text.
#[derive(Clone, Copy)]
pub(crate) struct Case<'a> {
    pub(crate) name: &'a str,
    pub(crate) script: &'a str,
    pub(crate) transcript: &'a str,
}

impl<'a> Case<'a> {
    // The case that a text is, its name of one line; nothing where the text is no case.
    pub(crate) fn read(text: &'a str) -> Option<Case<'a>>
        ensures { MatchOption result
            ((name script expected : List ℕ) → OneLine name → text.now ≢ case_text name script expected)
            (λ c. (text.now ≡ case_text c.name.now c.script.now c.transcript.now) × OneLine c.name.now) }
    {
        let (name, rest) = text.split_once('\n')?;
        let (script, transcript) = rest.split_once("=\n")?;
        Some(Case {
            name,
            script,
            transcript,
        })
    }
}
