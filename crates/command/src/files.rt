// Files that programs read and write.
use anyhow::anyhow;
use image::store;
use std::fs;

// The bytes of a file, or an error that names it.
pub fn bytes_of(rt: &HostRuntime, path: &str) -> anyhow::Result<Vec<u8>> {
    // a match, since the text of the error takes memory, which may be refused
    match fs::read(rt, path) {
        Ok(bytes) => Ok(bytes),
        Err(e) => Err(anyhow!(format!(in rt.alloc(); "cannot read {path}: {e}")?)),
    }
}

// Writes memory out in the format that is read.
pub fn save_memory(
    rt: &HostRuntime,
    cores: usize,
    memory: &[u32],
    path: &str,
) -> anyhow::Result<()> {
    let mut bytes = vec![in rt.alloc(); 0u8; memory.len().saturating_mul(4).saturating_add(9)]?;
    store(cores, memory, bytes.as_mut_slice()).map_err(|_| anyhow!(
        "memory cannot be written out"
    ))?;
    fs::write(rt, path, bytes.as_slice())?;
    Ok(())
}
