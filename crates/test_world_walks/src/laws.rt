//! Laws, and what is said where one is broken.
//!
//! The two macros stand for `?` behind a call: each `?` is five more values in its function, and what it costs to prove a
//! function rises with their square.

/// A law that is broken, in words.
pub type Law = &'static str;

pub fn holds(condition: bool, law: Law) -> Result<(), Law> {
    if condition { Ok(()) } else { Err(law) }
}

pub fn add<T: Drop>(list: &mut Vec<T>, item: T) -> Result<(), Law> {
    list.push(item).ok().ok_or("there is memory")
}

/// Ends with the law unless the condition holds.
#[macro_export]
macro_rules! keep {
    ($condition:expr, $law:expr) => {
        if !$condition {
            return Err($law);
        }
    };
}

/// What an option has; where it has nothing, the function ends with the law.
#[macro_export]
macro_rules! found {
    ($option:expr, $law:expr) => {
        match $option {
            Some(found) => found,
            None => return Err($law),
        }
    };
}
