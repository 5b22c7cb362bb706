// The path of a folder from the root on.
use crate::folder_error::Trouble;
use std::alloc::Global;
use std::rt::Files;

/// The path of a folder that stands, from the root on, so that it leads there too where the process goes to another working
/// folder. Where the system can't tell it, it is left as it is.
pub fn absolute(rt: &impl Files, alloc: Global, path: &str) -> Result<String, Trouble> {
    match rt.canonicalize(alloc, path) {
        Ok(path) => Ok(path.into_string()),
        Err(error) => match Trouble::from(error) {
            Trouble::NoMemory => Err(Trouble::NoMemory),
            _ => Ok(String::from_str(alloc, path)?),
        },
    }
}
