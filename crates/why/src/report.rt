// The line that is printed. No `Display`: a text and the number behind it are written one after the other, as by every program.
use console::{Failure, put, put_line};
use watch::Standing;

pub fn say(rt: &impl Print, standing: Standing) -> Result<(), Failure> {
    match standing {
        Standing::Confirmed => put(rt, b"confirmed\n"),
        Standing::LockLost(bit) => put_line(rt, "lock lost at bit ", bit),
        Standing::NeverLocked => put(rt, b"never locked\n"),
        Standing::BlockMissing(bit) => put_line(rt, "the expected block missing at bit ", bit),
        Standing::NoUsableBlock => put(rt, b"no usable block since lock\n"),
        Standing::NotNextMinute(bit) => put_line(rt, "not the next minute at bit ", bit),
        Standing::TooYoung => put(rt, b"candidate too young\n"),
    }
}
