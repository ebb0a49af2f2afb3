// The steps that a drain may still make.
ghost use Rattle.leaf_deeds.specs.Steps.{Spends};

/// The number of steps that a drain may still make. None: no limit.
#[derive(Drop)]
pub struct StepsAllowed {
    pub left: Option<u32>,
}

impl StepsAllowed {
    /// Uses one step. False if none is left.
    pub fn spend(&mut self) -> bool
        ensures { Spends self.old.left result self.new.left }
    {
        match self.left {
            None => true,
            Some(0) => false,
            Some(left) => {
                self.left = Some(left - 1);
                true
            }
        }
    }
}
