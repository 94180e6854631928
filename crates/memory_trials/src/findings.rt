use crate::stage::Stage;

/// The result of a trial: the first thing that was wrong, if there is one.
#[derive(Drop)]
pub struct Findings {
    wrong: Option<&'static str>,
}

impl Findings {
    /// Makes the findings with nothing wrong.
    pub fn new() -> Findings {
        Findings { wrong: None }
    }

    /// Records `what` as wrong if the condition is false and nothing was wrong before.
    pub fn expect(&mut self, holds: bool, what: &'static str) {
        if !holds && self.wrong.is_none() {
            self.wrong = Some(what);
        }
    }

    /// Returns the stage, or what was wrong.
    pub fn returned(self, stage: Stage) -> Result<Stage, &'static str> {
        match self.wrong {
            None => Ok(stage),
            Some(what) => Err(what),
        }
    }
}
