//! The choice of the player that makes the next step: one way after the other, or at random.
/// Chooses among the players that can make a step.
pub(super) trait Choice {
    /// Returns a number below `width`, which is not 0.
    fn next(&mut self, width: u8) -> u8;
}

/// Goes through all ways, depth first: each way begins as the one before up to the last choice that has an untried
/// number above it.
#[derive(Drop)]
pub(super) struct EachWay {
    made: Vec<(u8, u8)>,
    at: usize,
}

impl EachWay {
    pub(super) fn new(made: Vec<(u8, u8)>) -> EachWay {
        EachWay { made, at: 0 }
    }

    /// Goes on to the next way, if there is one.
    pub(super) fn advance(&mut self) -> bool {
        self.at = 0;
        while let Some((chosen, width)) = self.made.pop() {
            if chosen.saturating_add(1) < width {
                let _ = self.made.push((chosen + 1, width));
                return true;
            }
        }
        false
    }
}

impl Choice for EachWay {
    fn next(&mut self, width: u8) -> u8 {
        let chosen = match self.made.get(self.at) {
            Some((chosen, _width)) => *chosen,
            None => {
                let _ = self.made.push((0, width));
                0
            }
        };
        self.at = self.at.saturating_add(1);
        chosen
    }
}

/// Makes the choices that are listed, and then the first one.
#[derive(Drop)]
pub(super) struct Listed {
    choices: Vec<u8>,
    at: usize,
}

impl Listed {
    pub(super) fn new(choices: Vec<u8>) -> Listed {
        Listed { choices, at: 0 }
    }
}

impl Choice for Listed {
    fn next(&mut self, _width: u8) -> u8 {
        let chosen = match self.choices.get(self.at) {
            Some(chosen) => *chosen,
            None => 0,
        };
        self.at = self.at.saturating_add(1);
        chosen
    }
}

/// Chooses by a linear congruential generator (Lehmer, 1949), with the constants of Knuth's MMIX.
#[derive(Clone, Copy, Debug)]
pub(super) struct Chance {
    state: u64,
}

impl Chance {
    pub(super) fn new(seed: u64) -> Chance {
        Chance { state: seed }
    }
}

impl Choice for Chance {
    fn next(&mut self, width: u8) -> u8 {
        self.state = self
            .state
            .wrapping_mul(6364136223846793005)
            .wrapping_add(1442695040888963407);
        let drawn = (self.state >> 56) as u8;
        if width == 0 { 0 } else { drawn % width }
    }
}
