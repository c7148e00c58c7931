// What was made of a program.
ghost use Rattle.std.specs.Prelude.{◌≡◌};
ghost use Rattle.mir_top.specs.Calls.{reply_of};
ghost use Rattle.mir_top.specs.Due.{status_of_finish};

use crate::Reply;
use mir_interp::Finish;
use mir_opt::{MoveTrail, Trail};

/// What was made of a program, and written.
#[derive(Drop)]
pub enum Outcome {
    /// What the passes made of it.
    Optimised(Trail),
    /// What the passes made of it, shown at each stage.
    Shown(Trail),
    /// What code motion alone made of it.
    Moved(MoveTrail),
    /// What code motion alone made of it, shown by where its temporaries are held.
    Ranged(MoveTrail),
    /// What the motion of divisions alone made of it.
    Divided(MoveTrail),
    /// A program that was made of it, by a command that hands on no trail: its text alone was written.
    Rewritten,
    /// The report of its run, which stands like this.
    Ran(Finish),
    /// How its trial compares it with its target.
    Compared,
}

impl Outcome {
    /// The reply of a call with this outcome. It does not allocate.
    pub fn reply(self) -> Reply
        ensures { result ≡ reply_of self }
    {
        match self {
            Outcome::Optimised(trail) => Reply {
                status: 0,
                trail: Some(trail),
                moved: None,
            },
            Outcome::Shown(trail) => Reply {
                status: 0,
                trail: Some(trail),
                moved: None,
            },
            Outcome::Moved(trail) => Reply {
                status: 0,
                trail: None,
                moved: Some(trail),
            },
            Outcome::Ranged(trail) => Reply {
                status: 0,
                trail: None,
                moved: Some(trail),
            },
            Outcome::Divided(trail) => Reply {
                status: 0,
                trail: None,
                moved: Some(trail),
            },
            Outcome::Rewritten => Reply {
                status: 0,
                trail: None,
                moved: None,
            },
            Outcome::Ran(finish) => Reply {
                status: status_of_finish(finish),
                trail: None,
                moved: None,
            },
            Outcome::Compared => Reply {
                status: 0,
                trail: None,
                moved: None,
            },
        }
    }
}

/// The status of a run that stands like this.
fn status_of_finish(finish: Finish) -> u8
    ensures { result ≡ status_of_finish finish }
{
    match finish {
        Finish::Ended(_) => 0,
        Finish::Trapped(_) => 3,
        Finish::Running => 4,
    }
}
