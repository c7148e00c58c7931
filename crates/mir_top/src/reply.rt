// What a call replies.
use mir_opt::{MoveTrail, Trail};

/// What a call replies to its caller.
#[derive(Drop)]
pub struct Reply {
    /// The status: 0, 3 or 4 where the output was written, or else that of the complaint.
    pub status: u8,
    /// What the passes made of the program, exactly where the status is 0 under `optimise` or `stages`.
    pub trail: Option<Trail>,
    /// What code motion alone made of it, exactly where the status is 0 under `move` or `ranges`, and what the motion
    /// of divisions alone made of it, exactly where it is 0 under `divisions`.
    pub moved: Option<MoveTrail>,
}
