//! Where two workers stand.
use std::sync::{Condvar, Mutex, Wait};

/// How far two workers have come together. It begins at 0.
#[derive(Drop)]
pub struct Meeting {
    stage: Mutex<u32>,
    told: Condvar,
}

impl Meeting {
    /// Nobody has come far yet.
    pub fn new() -> Meeting {
        Meeting {
            stage: Mutex::new(0),
            told: Condvar::new(),
        }
    }

    /// Tells that a stage is reached.
    pub fn tell(&self, rt: &impl Wait, stage: u32) {
        *self.stage.lock(rt) = stage;
        self.told.notify_all();
    }

    /// Waits until a stage is reached.
    pub fn wait_for(&self, rt: &impl Wait, stage: u32) {
        let now = self.stage.lock(rt);
        let _reached = self.told.wait_while(rt, now, |now| *now < stage);
    }
}
