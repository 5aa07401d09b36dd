//! What is put together of parts. Each function is generic in what it lets go where memory is refused: where the types
//! are known, the proof goes through the drop of each of their parts at each such exit.

use desk_io::NoMemory;

/// Both of them, where memory was there for each.
///
/// # Errors
///
/// Memory was refused for one of them.
pub(crate) fn both<A: Drop, B: Drop>(
    first: Result<A, NoMemory>,
    second: Result<B, NoMemory>,
) -> Result<(A, B), NoMemory> {
    Ok((first?, second?))
}

/// These, and the next one after them.
///
/// # Errors
///
/// Memory was refused for the next one, or for its place.
pub(crate) fn with_next<T: Drop>(
    before: Vec<T>,
    next: Result<T, NoMemory>,
) -> Result<Vec<T>, NoMemory> {
    let mut all = before;
    all.push(next?)?;
    Ok(all)
}

/// Lets a value go.
pub(crate) fn let_go<T: Drop>(_value: T) {}
