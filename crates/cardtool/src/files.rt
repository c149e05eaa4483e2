// Files, with errors that name the file.
use anyhow::anyhow;
use std::{fs, io};

pub(crate) fn read_file(rt: &HostRuntime, name: &str) -> anyhow::Result<Vec<u8>> {
    fs::read(rt, name).map_err(|error| named(name, error))
}

pub(crate) fn write_file(rt: &HostRuntime, name: &str, bytes: &[u8]) -> anyhow::Result<()> {
    fs::write(rt, name, bytes).map_err(|error| named(name, error))
}

fn named(name: &str, error: io::Error) -> anyhow::Error {
    anyhow!("{name}: {error}")
}
