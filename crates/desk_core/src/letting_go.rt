//! Values of deep types that are let go. Each of them is let go in one place, since the proof of that takes long.

use crate::book::Book;
use crate::roster::Roster;
use act_model::{Asked, Deed, Entry, Heard};
use station_tables::Tables;
use tracklet_file::TrackletFile;

/// Lets a deed go.
pub fn let_go_deed(deed: Deed) {
    drop(deed);
}

/// Lets an entry go.
pub fn let_go_entry(entry: Entry) {
    drop(entry);
}

/// Lets what a request asks go.
pub fn let_go_asked(asked: Asked) {
    drop(asked);
}

/// Lets what was heard of a request go.
pub fn let_go_heard(heard: Heard) {
    drop(heard);
}

/// Lets what was filed go.
pub fn let_go_book(book: Book) {
    drop(book);
}

/// Lets a roster go.
pub fn let_go_roster(roster: Roster) {
    drop(roster);
}

/// Lets tables go.
pub fn let_go_tables(tables: Tables) {
    drop(tables);
}

/// Lets a file of observations and tracklets go.
pub fn let_go_file(file: TrackletFile) {
    drop(file);
}
