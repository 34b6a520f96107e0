use eip_simple_read::{CratePatterns, Predicate, SimpleFault, read_predicate};
use eip_text::{NoMemory, Text};
use std::alloc::Global;

/// The predicate that a text spells. The build of the pattern with this number, from 1, is refused as too large.
pub fn predicate_of(alloc: Global, text: &str, refused: u64) -> Result<Predicate, SimpleFault> {
    let Ok(failing) = vec![in alloc; refused] else {
        return Err(SimpleFault::NoMemory);
    };
    let mut patterns = CratePatterns::new(failing);
    match Text::of_str(alloc, text) {
        Ok(text) => read_predicate(alloc, &text, &mut patterns),
        Err(NoMemory) => Err(SimpleFault::NoMemory),
    }
}
