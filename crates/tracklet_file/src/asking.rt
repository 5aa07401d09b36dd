//! Whether live observations have the places of lines, asked for many at once.

ghost use Rattle.std.specs.Prelude.{◌≡◌, ◌+◌, ◌≤◌, ◌++◌, length, map, take, vec_len, vec_capacity};
ghost use Rattle.tracklet_file.specs.Observations.{has_live, is_live_line};
ghost use Rattle.tracklet_file.specs.Places.{asked, IsIndexed};

use crate::observation::Observation;
use crate::places::{BLOCK, Places};
use obs_record::Line;

impl Places {
    /// Whether a live observation has the place of each line's observation: an answer for each line, after those that
    /// are there. It takes no memory: there is room for the answers.
    pub(crate) fn have_live(&self, filed: &[Observation], lines: &[Line], live: &mut Vec<bool>)
        requires filed { IsIndexed filed.now self.now }
        requires room { vec_len live.old + length lines.now ≤ vec_capacity live.old }
        ensures live { live.new.items ≡ live.old.items ++ map (is_live_line (has_live filed.now)) lines.now }
        ensures capacity { vec_capacity live.new ≡ vec_capacity live.old }
    {
        if self.none_waits(filed) {
            self.have_live_marked(filed, lines, live);
        } else {
            self.have_live_each(filed, lines, live);
        }
    }

    // The same where some wait outside the index: each line is asked for by itself.
    fn have_live_each(&self, filed: &[Observation], lines: &[Line], live: &mut Vec<bool>)
        requires filed { IsIndexed filed.now self.now }
        requires room { vec_len live.old + length lines.now ≤ vec_capacity live.old }
        ensures live { live.new.items ≡ live.old.items ++ map (is_live_line (has_live filed.now)) lines.now }
        ensures capacity { vec_capacity live.new ≡ vec_capacity live.old }
    {
        for line in lines {
            live.push_reserved(self.is_live_line(filed, line));
        }
    }

    // The same where all that is filed is in the index: in blocks, since there is a place for the marks of this many.
    fn have_live_marked(&self, filed: &[Observation], lines: &[Line], live: &mut Vec<bool>)
        requires filed { IsIndexed filed.now self.now }
        requires none_waits { length self.now.marks ≡ length filed.now }
        requires room { vec_len live.old + length lines.now ≤ vec_capacity live.old }
        ensures live { live.new.items ≡ live.old.items ++ map (is_live_line (has_live filed.now)) lines.now }
        ensures capacity { vec_capacity live.new ≡ vec_capacity live.old }
    {
        let mut from = 0;
        while from < lines.len() {
            let until = lines.len().min(from + BLOCK);
            self.have_live_block(filed, &lines[from..until], live);
            from = until;
        }
    }

    // The same for a block of lines. Most of them are told from all that is filed by their marks: the loop that asks
    // for those is short, so that the memory that one needs comes while others are asked for.
    fn have_live_block(&self, filed: &[Observation], block: &[Line], live: &mut Vec<bool>)
        requires filed { IsIndexed filed.now self.now }
        requires none_waits { length self.now.marks ≡ length filed.now }
        requires few { length block.now ≤ BLOCK }
        requires room { vec_len live.old + length block.now ≤ vec_capacity live.old }
        ensures live { live.new.items ≡ live.old.items ++ map (is_live_line (has_live filed.now)) block.now }
        ensures capacity { vec_capacity live.new ≡ vec_capacity live.old }
    {
        let marks = self.marks_asked(block);
        for place in 0..block.len() {
            live.push_reserved(
                self.has_mark(marks[place]) && self.is_live_line(filed, &block[place]),
            );
        }
    }

    // The mark that is asked for where each of these lines is looked for, and zeros after that.
    fn marks_asked(&self, block: &[Line]) -> [u32; BLOCK]
        requires { length block.now ≤ BLOCK }
        ensures length { length result ≡ BLOCK }
        ensures marks { take (length block.now) result ≡ map (asked self.now.latest) block.now }
    {
        let mut marks = [0; BLOCK];
        for place in 0..block.len() {
            marks[place] = self.mark_asked(&block[place]);
        }
        marks
    }

    // Whether a live observation has the place of a line's observation. It doesn't stand in line with its callers, so
    // that their loops are short.
    #[inline(never)]
    fn is_live_line(&self, filed: &[Observation], line: &Line) -> bool
        requires { IsIndexed filed.now self.now }
        ensures { result ≡ is_live_line (has_live filed.now) line.now }
    {
        match &line.read {
            Ok(s) => self.has_live(filed, s.station, s.time, s.ra, s.dec),
            Err(_) => false,
        }
    }
}
