use std::io;

/// A test whose rows are a text.
pub trait TextTest {
    // What a check asks for, as that threads may share the runtime of a program that is tested.
    ghost ready: { Type 0 };

    /// The end of the name of each of its files, as `.rows`.
    fn ending(&self) -> &str;

    /// Checks the text of a file, prints how many rows it has, tells of each failure, and answers
    /// whether there was none.
    ///
    /// # Errors
    ///
    /// The output cannot be written, or there is no memory.
    fn check_text<R: Print + Eprint + AllocGlobal>(
        &self,
        rt: &R,
        file: &str,
        text: &str,
    ) -> io::Result<bool>
        requires { ready };
}
