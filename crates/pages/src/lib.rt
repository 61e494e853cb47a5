// What the programs that answer standard input row by row or page by page say where it ends, and whether they go on.
// No contract can speak of what was said, so `say_end` is safe and ends, and `go_on` promises its answer.
#![tactic(auto)]

ghost use Rattle.std.specs.Prelude.{◌≡◌};
ghost use Rattle.pages.specs.More.{more_after};

use stdio::Stop;

// Says how many rows were answered, and how many bytes are left after them.
pub fn say_end(rt: HostRuntime, what: &[u8], done: u64, left: u64) {
    stdio::say(rt, what);
    let _ = eprintln!(rt; "{done} left {left}");
}

// Whether there may be more after a reading. Bytes that are left after the last whole row are said, and so is a reading that failed.
pub fn go_on(rt: HostRuntime, what: &[u8], stop: Stop, done: u64, left: u64) -> bool
    ensures { result ≡ more_after stop }
{
    match stop {
        Stop::Full => true,
        Stop::Ended => {
            if left > 0 {
                say_end(rt, what, done, left);
            }
            false
        }
        Stop::Failed => {
            say_end(rt, what, done, left);
            false
        }
    }
}
