// After the refusal of a line that was to be what a controller pulls.

use dump_tokens::Drive;
use hints::{Hints, Lines, push_name};
use std::alloc::{AllocError, Global};

/// What to say where no signal of the dump fits the line.
pub fn on_no_line(alloc: Global, drive: Drive<'_>) -> Result<Hints, AllocError> {
    let mut lines = Lines::new(alloc);
    lines.part("no signal fits '");
    push_name(&mut lines, drive.line.as_bytes());
    lines.say(
        "': it may be a name, a path as top.bmc.sda_o, or the code of a signal of one bit; or one bit of a vector, as bus[2]",
    );
    lines.finish()
}

/// What to say where the line is SDA itself.
pub fn on_same_line(alloc: Global, drive: Drive<'_>) -> Result<Hints, AllocError> {
    let mut lines = Lines::new(alloc);
    lines.part("'");
    push_name(&mut lines, drive.line.as_bytes());
    lines.part("' does in each slot what SDA does, so it is the bus itself: give what ");
    push_name(&mut lines, drive.controller.as_bytes());
    lines.say(" pulls, as its output or its output enable (with --pulls 1 where 1 pulls SDA LOW)");
    lines.finish()
}

/// What to say where the line cannot be told apart from SDA.
pub fn on_like_line(alloc: Global, drive: Drive<'_>) -> Result<Hints, AllocError> {
    let mut lines = Lines::new(alloc);
    lines.part("'");
    push_name(&mut lines, drive.line.as_bytes());
    lines.part("' does in each slot what SDA does, and no target pulled SDA: what ");
    push_name(&mut lines, drive.controller.as_bytes());
    lines.say(" pulls cannot be told apart from the bus itself here");
    lines.finish()
}

/// What to say where the line pulls SDA while SDA is HIGH.
pub fn on_denied_line(alloc: Global, drive: Drive<'_>) -> Result<Hints, AllocError> {
    let mut lines = Lines::new(alloc);
    lines.part("'");
    push_name(&mut lines, drive.line.as_bytes());
    lines.say(
        "' pulls SDA LOW in a slot in which SDA is HIGH, so it is another line, or pulls at the other level: --pulls 1 is for lines that pull where they are 1, and --pulls 0 for those that pull where they are 0",
    );
    lines.finish()
}

/// What to say where the plan has no such controller. `controllers` are those that it has.
pub fn on_no_controller(
    alloc: Global,
    drive: Drive<'_>,
    controllers: &[String],
) -> Result<Hints, AllocError> {
    let mut lines = Lines::new(alloc);
    lines.part("the plan has no controller '");
    push_name(&mut lines, drive.controller.as_bytes());
    lines.say("'; it has:");
    for name in controllers {
        lines.detail(name.as_str());
    }
    lines.finish()
}

/// What to say where no brief can have a controller of this name.
pub fn on_no_name(alloc: Global, drive: Drive<'_>) -> Result<Hints, AllocError> {
    let mut lines = Lines::new(alloc);
    lines.part("'");
    push_name(&mut lines, drive.controller.as_bytes());
    lines.say(
        "' cannot name a controller of a brief: 1 to 32 letters, digits and '_', no digit first, and no word of plans or briefs",
    );
    lines.finish()
}
