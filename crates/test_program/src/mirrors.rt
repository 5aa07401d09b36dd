//! The commands `mirror` and `look` with a mirror in memory, over a database and over the file `mirror.db`, after whole
//! sessions over disks in memory: which rows it holds, what it keeps where something fails, and which observations it
//! gives of some time.

mod counts;
mod databases;
mod faults;
mod offices;
