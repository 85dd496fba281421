// What is said on standard error.
use program_io::fail;
use request::broken::Broken;
use std::io::Error;

// Why the program ends.
#[derive(Drop)]
pub enum End {
    // There is no further request.
    Done,
    // A request is broken.
    Broken(Broken),
    // What failed, and why.
    Failed(&'static str, Error),
}

// What breaks a request.
fn told(why: Broken) -> &'static str {
    match why {
        Broken::NoRow => "its header is no row of eight numbers",
        Broken::Verb => "unknown verb",
        Broken::Flags => "unknown flag",
        Broken::X => "x is above its limit",
        Broken::Y => "y is above its limit",
        Broken::Bodies => "the verb does not take such a body",
        Broken::CutOff => "the input ends inside it",
    }
}

// Says why the program ends, if it is not that there is no further request.
pub fn say<R: Eprint>(rt: &R, end: End) {
    match end {
        End::Done => {}
        End::Broken(why) => {
            let why = told(why);
            let _ = eprintln!(rt; "plush_serve: broken request: {why}");
        }
        End::Failed(what, why) => fail(rt, what, &why),
    }
}
