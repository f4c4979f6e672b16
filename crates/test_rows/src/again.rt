/// Makes a call, and once more if it fails, since memory may have been refused.
#[macro_export]
macro_rules! again {
    ($call:expr) => {
        match $call {
            Ok(answer) => Ok(answer),
            Err(_) => $call,
        }
    };
}
