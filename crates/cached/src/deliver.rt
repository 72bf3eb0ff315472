// A cycle begins: it is settled which message each core takes, and lines come from memory for the requests that fetch them.
ghost use Rattle.std.specs.Prelude.{◌≡◌, ◌<◌, map};
ghost use Rattle.cores.specs.Loop.{silent};
ghost use Rattle.cores.specs.Ports.{line_of};
ghost use Rattle.cached.specs.Layout.{state_of, with_dues};
ghost use Rattle.cached.specs.Lines.{deliver_all, deliver_one, delivered};
ghost use Rattle.cached.specs.Puts.{dues};
ghost use Rattle.cached.specs.Rv.{rv};
ghost use Rattle.cached.specs.Soc.{deliver, with_lines_of};

use crate::control::Control;
use crate::regions::{has_grant, is_asked, request};
use crate::reply::grant_line;
use crate::state::{Chip, control, set_control, set_due};
use cache::slot::Content;
use cores::port::Line;
use directory::request::{Request, Stage};

// Whether core k takes its grant in this cycle, and not its probe: that stood there already, or nothing is asked of it.
fn due_next(chip: &Chip, k: usize) -> bool
    requires { k < 4 }
    ensures { result ≡ dues (state_of chip.now) k }
{
    !is_asked(chip, k) || has_grant(chip, k)
}

// Which message each core takes in this cycle.
fn settle(chip: &mut Chip)
    ensures { state_of chip.new ≡ with_dues (state_of chip.old) (dues (state_of chip.old)) }
{
    for k in 0..4 {
        let due = due_next(chip, k);
        set_due(chip, k, due);
    }
}

// A line comes, for core k if that fetches it.
fn deliver_to(chip: &mut Chip, k: usize, line: Line)
    requires { k < 4 }
    ensures { state_of chip.new ≡ with_lines_of rv (delivered k line.number line.words ((state_of chip.old).lines.request k) (state_of chip.old).lines) (state_of chip.old) }
{
    let Some(
        request @ Request {
            stage: Stage::Fetching,
            ..
        },
    ) = request(chip, k)
    else {
        return;
    };
    if request.line == line.number {
        let content = Content::fetched(line.number, line.words);
        grant_line(chip, k, request.slot, content);
    }
}

// A line comes, for one of the cores.
fn deliver_one(chip: &mut Chip, line: Line)
    ensures { state_of chip.new ≡ with_lines_of rv (deliver_one 4 line.number line.words (state_of chip.old).lines) (state_of chip.old) }
{
    for k in 0..4 {
        deliver_to(chip, k, line);
    }
}

// All lines that come.
fn deliver_all(chip: &mut Chip, given: &[Line])
    ensures { state_of chip.new ≡ with_lines_of rv (deliver_all 4 (map line_of given.now) (state_of chip.old).lines) (state_of chip.old) }
{
    for line in given {
        deliver_one(chip, *line);
    }
}

// A cycle begins: which message each core takes is settled, the other way is replaced next, and lines come.
pub(crate) fn deliver(chip: &mut Chip, given: &[Line])
    ensures { (state_of chip.new, silent) ≡ deliver rv (map line_of given.now) (state_of chip.old) }
{
    settle(chip);
    let before = control(chip);
    set_control(
        chip,
        Control {
            way: !before.way,
            ..before
        },
    );
    deliver_all(chip, given);
}
