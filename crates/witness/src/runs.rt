//! The calls on maps whose values are plain numbers: a run of commands, and `or_default`.

use crate::answer::of_value;
use crate::items::{Named, Ruled};
use crate::keys::Id;
use crate::player::Player;
use crate::words::Words;
use halfbrown::run::run;
use halfbrown::{Command, Equivalent, Limit, LimitedHashMap};
use std::alloc::AllocError;
use std::io;
use test_support::builders::Counting;

impl<'a, R: Print, K: Named, L: Limit> Player<'a, R, K, u64, Counting<'a>, L>
where
    Id: Equivalent<K>,
{
    /// Plays a line.
    pub(crate) fn play_plain_line(&mut self, line: &str) -> io::Result<()> {
        let all = self.begin(line)?;
        let words = Words::new(all.as_slice());
        match words.next() {
            "run" => self.run(&words)?,
            "entry" if line.ends_with(" or_default") => self.or_default(&words)?,
            call => self.perform(call, &words)?,
        }
        self.end(&words)
    }
}

impl<R: Print, K: Named, S: Ruled, L: Limit> Player<'_, R, K, u64, S, L> {
    // `or_default` of the entry of a key.
    fn or_default(&mut self, words: &Words<'_>) -> io::Result<()> {
        let key = self.key(words)?;
        words.next();
        let answer = match self.a.entry(key) {
            Ok(entry) => of_value(entry.or_default()),
            Err(back) => back.into(),
        };
        self.say(Ok(answer))
    }

    // Runs the commands, and prints the replies.
    fn run(&mut self, words: &Words<'_>) -> io::Result<()> {
        let commands = self.commands(words)?;
        match run(self.alloc, &mut self.a, commands) {
            Ok(replies) => print!(self.rt; "{replies:?}"),
            Err(back) => print!(self.rt; "refused memory {back:?}"),
        }
    }

    fn commands(&self, words: &Words<'_>) -> Result<Vec<Command<K, u64>>, AllocError> {
        let mut commands = Vec::new(self.alloc);
        for _ in 0..words.len() {
            if words.len() == 0 {
                break;
            }
            commands.push(self.command(words)?)?;
        }
        self.mark();
        Ok(commands)
    }

    fn command(&self, words: &Words<'_>) -> Result<Command<K, u64>, AllocError> {
        Ok(match words.next() {
            "insert" => Command::Insert(self.key_of(words.name())?, words.number()),
            "insert_new" => Command::InsertNew(self.key_of(words.name())?, words.number()),
            "entry_or_insert" => Command::EntryOrInsert(self.key_of(words.name())?, words.number()),
            "raw_or_insert" => Command::RawOrInsert(self.key_of(words.name())?, words.number()),
            "get" => Command::Get(self.key_of(words.name())?),
            "remove" => Command::Remove(self.key_of(words.name())?),
            "reserve" => Command::Reserve(words.count()),
            "clear" => Command::Clear,
            "shrink" => Command::Shrink,
            "is_vec" => Command::IsVec,
            "len" => Command::Len,
            _ => {
                words.refuse();
                Command::Len
            }
        })
    }
}
