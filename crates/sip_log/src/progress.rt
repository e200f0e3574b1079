//! How far a log was read.
ghost use Rattle.std.specs.Prelude.{◌≡◌, ◌<◌, ◌≤◌, ℕ, List, [], length, None, IsSome, IfSome, MatchOption};
ghost use Rattle.sip_standard.specs.declared.format.Format.TheVariants.{One};
ghost use Rattle.sip_log.specs.Reading.{Stage, fresh, entries, failed, ProgressState, beside_source, Moves, Opens, Nexts};
ghost use Rattle.sip_log.specs.Ahead.{IsAhead, LacksAhead, passed};
ghost use Rattle.sip_log.specs.Told.{TellsWhatComes, next_of};
ghost use Rattle.sip_log.specs.inner.Entry.{EntryComes};

use crate::ahead::{Ahead, entry_ahead};
use crate::entry::{Entry, next_entry};
use crate::header::read_header;
use crate::log_error::LogError;
use crate::window::Window;
use sip_standard::{Format, Source};
use sip_times::Params;
use std::alloc::Global;
use std::marker::Model;
use std::mem;

/// What is read next: the header first, then entries through a window, and nothing after the end or an error.
#[derive(Debug, Drop)]
enum Stage {
    /// Nothing was read yet: the header comes next.
    Fresh,
    /// The header was read: entries come next, of which the window holds the front.
    Entries(Window),
    /// The end was told: nothing comes any more.
    Ended,
    /// An error was told: nothing comes any more.
    Failed,
}

/// How far a log was read from a source that someone else holds.
#[derive(Debug, Drop)]
pub struct Progress {
    /// Where memory is taken for windows and messages.
    alloc: Global,
    /// Whether the header comes next or an entry, or why nothing does.
    stage: Stage,
    /// The format of the log, once the header was read.
    format: Format,
    /// The times of the header, once it was read.
    params: Option<Params>,
    /// How many entries were read, or were since they were counted anew.
    count: u64,
    /// The moment of the last entry, and 0 before the first.
    last: u64,
}

impl Model for Progress {
    ghost use Rattle.std.specs.Prelude.{◌≤◌};
    ghost use Rattle.sip_log.specs.Reading.{ProgressState};

    // Contracts see this as a `ProgressState`: the stage, the bytes that are held, the format, the times, the count and the last moment.
    ghost Value = { ProgressState };

    ghost use Rattle.sip_log.specs.inner.Place.{stage_of, held_at, FitsStage};
    ghost use Rattle.sip_standard.specs.LogSays.{most_entries};

    ghost view = { λ p. record { stage = stage_of p.stage; held = held_at p.stage; format = p.format; times = p.params; count = p.count; last = p.last } };

    // At all times no more entries were counted than a log may have, and the times, the count and the last moment fit the stage.
    ghost invariant = { λ p. (p.count ≤ most_entries) × FitsStage p.stage p.params p.count p.last };
}

impl Progress {
    ghost use Rattle.sip_log.specs.inner.Window.{unread};
    ghost use Rattle.sip_standard.specs.LogSays.{most_entries};

    /// A log of which nothing was read. It takes no memory.
    pub fn new(alloc: Global) -> Progress
        ensures { result ≡ record { stage = fresh; held = []; format = One; times = None; count = 0; last = 0 } }
    {
        Progress {
            alloc,
            stage: Stage::Fresh,
            format: Format::One,
            params: None,
            count: 0,
            last: 0,
        }
    }

    /// Reads the header, and no entry yet. The answer has the times of the header, and how far the log was read.
    ///
    /// `LogError::Io` is answered only if the source has failed: in this call, if it had not before.
    pub fn open<R: Source>(alloc: Global, source: &mut R) -> Result<(Params, Progress), LogError>
        ensures { Opens (R.left source.old) (R.left source.new) (R.has_failed source.old) (R.has_failed source.new) result }
    {
        let mut window = Window::new(alloc)?;
        match read_header(&mut window, source) {
            Ok(header) => {
                let (format, params) = header;
                let progress = Progress {
                    alloc,
                    stage: Stage::Entries(window),
                    format,
                    params: Some(params),
                    count: 0,
                    last: 0,
                };
                Ok((params, progress))
            }
            Err(error) => Err(error),
        }
    }

    /// Counts the entries anew: as many may come from here on as a log has, the next of them with the number 1. All else stays. So an
    /// input is read on that has more entries than a log.
    pub fn count_anew(&mut self)
        ensures { self.new ≡ record { stage = self.old.stage; held = self.old.held; format = self.old.format; times = self.old.times; count = 0; last = self.old.last } }
    {
        self.count = 0;
    }

    /// The times of the log's header, once it was read.
    pub fn params(&self) -> Option<Params>
        ensures { result ≡ self.now.times }
    {
        self.params
    }

    /// Reads the next entry, and before the first one the header. The answer is `None` at the end of the log, and at every later call.
    ///
    /// `LogError::Io` is answered only if the source has failed: in this call, if it had not before. After an
    /// error every later call answers `LogError::Failed`. The source must be the same one in each call.
    pub fn next<R: Source>(&mut self, source: &mut R) -> Result<Option<Entry>, LogError>
        ensures { Nexts (beside_source self.old (R.left source.old) (R.has_failed source.old))
            (beside_source self.new (R.left source.new) (R.has_failed source.new)) result }
    {
        self.next_into(Vec::new(self.alloc), source)
    }

    /// Does what `next` does, and puts the entry's bytes into this buffer instead of a new one. What the buffer held is dropped, and also
    /// the buffer itself where the answer is no entry.
    #[inline(always)]
    pub fn next_into<R: Source>(
        &mut self,
        buffer: Vec<u8>,
        source: &mut R,
    ) -> Result<Option<Entry>, LogError>
        ensures { Nexts (beside_source self.old (R.left source.old) (R.has_failed source.old))
            (beside_source self.new (R.left source.new) (R.has_failed source.new)) result }
    {
        // The stage is set anew below; where an error is answered it stays `Failed`.
        match mem::replace(&mut self.stage, Stage::Failed) {
            Stage::Fresh => {
                let mut window = Window::new(self.alloc)?;
                match read_header(&mut window, source) {
                    Ok(header) => {
                        let (format, params) = header;
                        self.format = format;
                        self.params = Some(params);
                        self.entry(window, buffer, source)
                    }
                    Err(error) => Err(error),
                }
            }
            Stage::Entries(window) => self.entry(window, buffer, source),
            Stage::Ended => {
                self.stage = Stage::Ended;
                Ok(None)
            }
            Stage::Failed => Err(LogError::Failed),
        }
    }

    /// The entry that comes next, where it has a message and stands whole among the bytes that were read and not given out. Nothing is read for it.
    /// Where there is no such entry, `next` tells what comes.
    #[inline(always)]
    pub fn ahead(&self) -> Option<Ahead<'_>>
        ensures { MatchOption result (LacksAhead self.now) (IsAhead self.now) }
    {
        match &self.stage {
            Stage::Entries(window) => entry_ahead(window, self.format, self.count, self.last),
            Stage::Fresh | Stage::Ended | Stage::Failed => None,
        }
    }

    /// Passes over the entry that comes next, which is at this moment and takes so many bytes: it was looked at by `ahead`.
    #[inline(always)]
    pub fn pass(&mut self, moment: u64, size: usize)
        requires on { self.old.stage ≡ entries }
        requires few { self.old.count < most_entries }
        requires within { size ≤ length self.old.held }
        ensures { self.new ≡ passed self.old moment size }
    {
        if let Stage::Entries(window) = &mut self.stage {
            window.consume(size);
            self.count += 1;
            self.last = moment;
        }
    }

    /// Reads the next entry into the buffer, where the header was read before.
    #[inline(always)]
    fn entry<R: Source>(
        &mut self,
        mut window: Window,
        buffer: Vec<u8>,
        source: &mut R,
    ) -> Result<Option<Entry>, LogError>
        requires stage { self.old.stage ≡ failed }
        requires times { IsSome self.old.times }
        ensures moves { Moves self.old.count self.old.last (beside_source self.new (R.left source.new) (R.has_failed source.new)) result }
        ensures format { self.new.format ≡ self.old.format }
        ensures times { self.new.times ≡ self.old.times }
        ensures says { TellsWhatComes (unread window (R.left source.old)) (beside_source self.new (R.left source.new) (R.has_failed source.new)).left
            (R.has_failed source.old) (R.has_failed source.new) (EntryComes self.old.format self.old.count self.old.last) next_of result }
    {
        match next_entry(
            buffer,
            &mut window,
            source,
            self.format,
            self.count,
            self.last,
        ) {
            Ok(Some(entry)) => {
                self.count = entry.number;
                self.last = entry.moment;
                self.stage = Stage::Entries(window);
                Ok(Some(entry))
            }
            Ok(None) => {
                self.stage = Stage::Ended;
                Ok(None)
            }
            Err(error) => Err(error),
        }
    }
}
