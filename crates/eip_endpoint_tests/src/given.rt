use eip_endpoint::MemoryFiles;
use eip_text::{NoMemory, Series, Text};
use std::alloc::Global;

/// A file by its folder, its name and its bytes.
fn file(
    alloc: Global,
    folder: &str,
    name: &str,
    bytes: &[u8],
) -> Result<(Text, Text, Series<u8>), NoMemory> {
    let mut kept = Vec::new(alloc);
    kept.extend_from_slice(bytes)?;
    Ok((
        Text::of_str(alloc, folder)?,
        Text::of_str(alloc, name)?,
        Series::of(kept),
    ))
}

/// Such files in a list.
fn content_of(
    alloc: Global,
    rows: &[(&str, &str, &[u8])],
) -> Result<Vec<(Text, Text, Series<u8>)>, NoMemory> {
    let mut content = Vec::new(alloc);
    for (folder, name, bytes) in rows {
        content.push(file(alloc, folder, name, bytes)?)?;
    }
    Ok(content)
}

/// Files in memory, by folder, name and bytes, of whose calls those of the failing numbers fail.
pub fn files_of(
    alloc: Global,
    rows: &[(&str, &str, &[u8])],
    failing: &[u64],
) -> Result<MemoryFiles, NoMemory> {
    let mut numbers = Vec::new(alloc);
    numbers.extend_from_slice(failing)?;
    Ok(MemoryFiles::new(alloc, content_of(alloc, rows)?, numbers))
}

/// Whether there is a file of this folder and name, and it holds these bytes.
pub fn holds(files: &MemoryFiles, folder: &str, name: &str, bytes: &str) -> bool {
    files.content().iter().any(|file| {
        file.0.as_str() == folder && file.1.as_str() == name && file.2.items() == bytes.as_bytes()
    })
}
