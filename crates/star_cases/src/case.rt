//! The cases of a folder: the files that end in `.cjoin`, and beside each one
//! that ends in `.replies`.
use std::rt::Files;
use std::{fs, io};

/// A script, and the bytes that are to be written for it.
#[derive(Debug, Drop)]
pub(crate) struct Case {
    pub script: Vec<u8>,
    pub replies: Vec<u8>,
}

/// The name of the case to which a file belongs.
fn name_of(file: &str) -> Option<&str> {
    file.strip_suffix(".cjoin")
        .or_else(|| file.strip_suffix(".replies"))
}

/// The names of the cases of a folder, in order, each once. A script without replies is a case too,
/// and so are replies without a script.
pub(crate) fn case_names<R: Files + AllocGlobal + Clone + Drop>(
    rt: &R,
    folder: &str,
) -> io::Result<Vec<String>> {
    let mut names = Vec::new(rt.alloc());
    for entry in fs::read_dir(rt, folder)? {
        let entry = entry?;
        if let Some(name) = name_of(entry.file_name()) {
            names.push(String::from_str(rt.alloc(), name)?)?;
        }
    }
    names.sort_unstable();
    names.dedup();
    Ok(names)
}

/// The two files of a case.
pub(crate) fn read_case<R: Files + AllocGlobal>(
    rt: &R,
    folder: &str,
    name: &str,
) -> io::Result<Case> {
    let script = format!(in rt.alloc(); "{folder}/{name}.cjoin")?;
    let replies = format!(in rt.alloc(); "{folder}/{name}.replies")?;
    Ok(Case {
        script: fs::read(rt, script.as_str())?,
        replies: fs::read(rt, replies.as_str())?,
    })
}
