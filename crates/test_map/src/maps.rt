//! The map for programs, by its public calls: rows of one handle, upkeep over thousands of rows, threads, handles that meet, a close and a
//! map that is opened from the image, a scan beside changes, stamps, and handles over the seats of an index, of which one follows what another
//! one leaves. Rows that come and go, of which none may be refused, many keys at once, the least rows and their number, rows by pages and by ranges, rows that a function changes, and a copy.

mod calls;
mod counts;
mod groups;
mod growing;
mod images;
mod limits;
mod room;
mod scans;
mod seats;
mod stamps;
mod tables;
mod trials;
mod updates;
