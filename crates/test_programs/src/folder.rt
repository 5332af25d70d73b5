use crate::{TextTest, tell};
use std::rt::Files;
use std::{fs, io};

/// Checks a file of a folder, and answers whether it passed.
fn check_file<R: Files + Print + Eprint + AllocGlobal, T: TextTest>(
    rt: &R,
    folder: &str,
    file: &str,
    test: &T,
) -> io::Result<bool>
    requires { T.ready }
{
    let alloc = rt.alloc();
    let ending = test.ending();
    if !file.ends_with(ending) {
        let failure = format!(in alloc;
            "{file}: it is not read: its name does not end in {ending}"
        )?;
        return tell(rt, failure.as_str());
    }
    let path = format!(in alloc; "{folder}/{file}")?;
    match fs::read_to_string(rt, path.as_str()) {
        Ok(text) => test.check_text(rt, file, text.as_str()),
        Err(error) => tell(
            rt,
            format!(in alloc; "{file}: it cannot be read: {error}")?.as_str(),
        ),
    }
}

/// The names of what lies in a folder, in their order.
///
/// # Errors
///
/// The folder cannot be listed, or there is no memory.
pub fn names_of<R: Files + AllocGlobal + Clone + Drop>(
    rt: &R,
    folder: &str,
) -> io::Result<Vec<String>> {
    let alloc = rt.alloc();
    let mut names = Vec::new(alloc);
    for entry in fs::read_dir(rt, folder)? {
        names.push(String::from_str(alloc, entry?.file_name())?)?;
    }
    names.sort()?;
    Ok(names)
}

/// Checks the texts of all files of a folder, and answers whether all of them passed. What lies in the
/// folder and is no file of the test does not pass.
///
/// # Errors
///
/// The folder cannot be listed, the output cannot be written, or there is no memory.
pub fn check_folder<R: Files + Print + Eprint + AllocGlobal + Clone + Drop, T: TextTest>(
    rt: &R,
    folder: &str,
    test: &T,
) -> io::Result<bool>
    requires { T.ready }
{
    let mut have_passed = true;
    for name in names_of(rt, folder)?.iter() {
        have_passed = check_file(rt, folder, name.as_str(), test)? && have_passed;
    }
    Ok(have_passed)
}
