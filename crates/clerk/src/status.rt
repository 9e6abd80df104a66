// How the process ends.
ghost use Rattle.std.specs.Prelude.{◌≡◌, ◌≤◌};
ghost use Rattle.clerk.specs.Status.{status_in};

// Why it ends before its work is done.
#[derive(Clone, Copy, PartialEq, Eq)]
pub enum Stop {
    // A step refused the object, or the examination says no.
    Refused,
    // The arguments are none that bark takes.
    Usage,
    // A file to be read cannot be had whole.
    NoInput,
    // A file to be written, or the words, cannot be.
    NoOutput,
}

// The exit status: 0 where the image is linked, written and listed, or the examination says yes.
pub fn status(ended: Result<(), Stop>) -> u8
    ensures { (result ≡ status_in ended) × (result ≤ 4) }
{
    match ended {
        Ok(()) => 0,
        Err(Stop::Refused) => 1,
        Err(Stop::Usage) => 2,
        Err(Stop::NoInput) => 3,
        Err(Stop::NoOutput) => 4,
    }
}
