//! The settings of a session.
ghost use Rattle.std.specs.Prelude.{IfOk, IfSome, IsTrue};
ghost use Rattle.swarm_model.specs.Settings.{are_settings};

use std::alloc::Global;
use swarm_model::Settings;
use swarm_policy::{SettingsFault, open_settings, read_settings};
use test_transcript_reader::{File, Transcript, TranscriptError};

/// Which transcripts are served by `session`, and under which settings.
pub trait SessionSettings {
    /// The settings under which a transcript serves its console by `session`, where that is all it does.
    ///
    /// # Errors
    ///
    /// Want of memory.
    fn settings_of(
        alloc: Global,
        transcript: &Transcript,
    ) -> Result<Option<Settings>, TranscriptError>
        ensures rules { IfOk result (λ found. IfSome found (λ settings. IsTrue (are_settings settings))) };
}

/// The open settings, of a transcript whose one word is `session`.
#[derive(Clone, Copy)]
pub struct OpenSettings;

impl SessionSettings for OpenSettings {
    fn settings_of(
        alloc: Global,
        transcript: &Transcript,
    ) -> Result<Option<Settings>, TranscriptError> {
        match transcript.words.as_slice() {
            [word] if word.as_str() == "session" => Ok(Some(open_settings(alloc)?)),
            _ => Ok(None),
        }
    }
}

/// The most bytes of a file with settings.
const SETTINGS_SIZE: usize = 1_048_576;

/// The settings that a file says, where they are accepted and name no store.
fn settings_in(alloc: Global, file: &File) -> Result<Option<Settings>, TranscriptError>
    ensures { IfOk result (λ found. IfSome found (λ settings. IsTrue (are_settings settings))) }
{
    if file.bytes.len() > SETTINGS_SIZE {
        return Ok(None);
    }
    match read_settings(alloc, file.bytes.as_slice()) {
        Ok(settings) => Ok(if settings.store.is_none() {
            Some(settings)
        } else {
            None
        }),
        Err(SettingsFault::Memory) => Err(TranscriptError::Memory),
        Err(SettingsFault::Broken { .. }) => Ok(None),
    }
}

/// The open settings where no file is named, or those of the file that the words `session --settings`
/// name, where every load of a file succeeds, the settings are accepted, and they name no store.
#[derive(Clone, Copy)]
pub struct FileSettings;

impl SessionSettings for FileSettings {
    fn settings_of(
        alloc: Global,
        transcript: &Transcript,
    ) -> Result<Option<Settings>, TranscriptError> {
        let path = match transcript.words.as_slice() {
            [word, flag, path] if word.as_str() == "session" && flag.as_str() == "--settings" => {
                path.as_str()
            }
            _ => return OpenSettings::settings_of(alloc, transcript),
        };
        match transcript.files.iter().find(|it| it.path.as_str() == path) {
            Some(file) if transcript.file_fails.is_empty() => settings_in(alloc, file),
            _ => Ok(None),
        }
    }
}
