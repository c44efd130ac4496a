// The recovery period of a record that is of form, if it has one.
ghost use Rattle.std.specs.Prelude.{◌≡◌, true};
ghost use Rattle.plan.specs.Known.{period as period_of};
ghost use Rattle.plan.specs.Accepted.{well_formed};
ghost use Rattle.plan_period.specs.Answers.{if_any};

use plan::Plan;
use plan_walk::step::Walk;

// Tasks stand in the order of their frames, so those of the next frame follow those of this one.
pub fn period(p: Plan) -> Option<usize>
    requires { well_formed p ≡ true }
    ensures { result ≡ if_any (period_of p) }
{
    let frames = p.frames;
    let cells = p.cells;
    let count = p.task_count;
    let bound = frames * cells + frames;
    let mut words = [0u16; Plan::CELLS];
    let mut w = Walk {
        low: 0,
        longest: 0,
        time: 0,
        frame: 0,
    };
    // A turn takes a task or ends a frame, so nothing counts the turns.
    let mut i: usize = 0;
    while w.time < bound {
        if i < count {
            let t = p.tasks[i];
            if t.frame == w.frame {
                plan_walk::step::put_known(
                    &mut words,
                    t,
                    plan_walk::step::ones(w.time.min(frames)),
                );
                i += 1;
                continue;
            }
        }
        w = plan_walk::step::closed(w, &mut words, &p.voted, frames, cells);
        if w.low == frames {
            return Some(w.longest + 1);
        }
        if w.frame == 0 {
            i = 0;
        }
    }
    None
}
