//! What `--version` says, and what stands behind the options in the help of each command. No line has more than 80 columns.

/// The version of the program, and the toolchain that it is proved with.
pub(crate) const VERSION: &str = "0.1.0, proved with rattle-kit-13f logic dac8208d650f15bf";

/// Of all commands.
pub(crate) const ABOUT_ALL: &str = "\
The index is in memory; an image or a log is what is kept of it. There is no
network: requests are lines on standard input.

`blink help COMMAND` has the lines that a command reads, and examples.

Exit status: 0 all is well; 1 an image breaks a rule; 2 the command line is
refused; 3 reading or writing failed, or a script or a row is bad; 4 out of
memory; 5 the answer of a request was lost.";

/// Of `serve`.
pub(crate) const ABOUT_SERVE: &str = "\
Requests, a line each, in lower case with one space between words; numbers are 0
to 18446744073709551615:
  find K            found V, or absent
  insert K V        inserted; or present V, with the value that stays; or noroom
  put K V           inserted; or replaced V, with the value that went; or noroom
  delete K          deleted V, or absent; or noroom
  change K OLD NEW  changed; or differs V, where V is not OLD and stays; or
                    absent; or noroom
  scan LO HI        rows K=V K=V, the rows from key LO on and below key HI, by
                    rising keys
  scandown LO HI    the same rows, by falling keys
  scanfrom LO       rows K=V K=V, all rows from key LO on, by rising keys
  scandownfrom HI   all rows from key HI on, by falling keys
  .. limit N        behind one of these four: N rows at most
  first, last       rows K=V, the row of the least or greatest key; or rows
  next K            rows K=V, the row of the least key above K; or rows
  previous K        rows K=V, the row of the greatest key below K; or rows
  count LO HI       count N, the number of rows that scan LO HI lists
  add K D           replaced V, and K has V + D then, modulo 2^64; or absent; or
                    noroom
  stat              pages A used U free F: all pages of the index, those in use,
                    and those that may be taken
  save FILE         saved N: an image of all N rows is in this file; or unsaved
  sync              synced: the end of a section
Any other line is malformed; standard error says at the end how many were, and
at which word the first one. Each reply begins with the number of its line.
Replies are written at each sync and at the end of the input. All requests
before a sync are carried out before those after it; those between two syncs in
any order, but those of one key in the order of their lines. With --section N
replies are written behind so many lines too: without it, and without a sync,
all are in memory until the input ends, some 20 bytes a line. With --interactive
each line is answered before the next one is read, and no sync is needed: for a
program that writes a line and waits for its reply. At a terminal serve and dump
do so by themselves, with a prompt, which has the words help and quit.

Sizes. The index begins with 1024 pages, and has twice as many whenever the next
lines may lack some; --most N is a bound. With --pages or --large it has so many
from the start, and grows only where --most says so. A page has room for 14
rows. Rows in an empty index before the first noroom, by the order of the keys,
and rows in all where random keys went on; by one worker, by more about as many:
    pages     falling     rising     random    in all   memory
     1024      11,347      7,174      9,100    12,840   0.6 MB
    65536     723,121    458,758    583,000   823,198    36 MB
  1048576  10,208,534  7,340,030  9,331,000         -   328 MB
Some six rows a page surely fit. While it grows a reply waits, a second or less
for a million rows. Where memory for that is refused it stays as it is. A
request that finds no room changes nothing.
--stats says how many did, and how many pages are in use.

With --image the index begins with the rows of the image, as `blink dump` writes
it, and with its pages; the file stays as it is.

Examples:
  printf 'insert 5 50\\nsync\\nfind 5\\n' | blink serve
  printf 'insert 5 50\\nfind 5\\n' | blink serve
  blink serve --pages 65536 --workers 8 --stats <requests >replies
  blink serve --section 10000 <requests >replies
  blink serve --image index.image <requests >replies
  mkdir kept && blink serve --log kept --section 1000 <requests >replies

Exit status: 0 all is well, also where requests found no room; 1 the image
breaks a rule, which standard error names as `blink check` does, and nothing is
read; 3 reading or writing failed, or the log; 4 out of memory; 5 the answer of
a request was lost.";

/// Of `dump`.
pub(crate) const ABOUT_DUMP: &str = "\
Reads request lines and writes replies as `blink serve` does (`blink help serve`
has the lines). Where that ends without a fault, the image of the index is
written to a new file FILE.PID.new, which is then renamed to FILE: FILE has the
whole image, or what it had. Its mode stays, and a link is followed. What is no
regular file is refused before anything is read. `blink check FILE` says what
is in FILE, and `blink draw FILE` shows it.

With --image the index begins with the rows and the pages of that image. The new
one has as many pages as the index has grown to.

Examples:
  printf 'insert 5 50\\n' | blink dump index.image
  blink dump index.image --pages 65536 <requests >replies
  blink dump index.image --image index.image <requests >replies

Exit status: 0 all is well; 1 that image breaks a rule, which standard error
names as `blink check` does; 3 reading or writing failed; 4 out of memory; 5 the
answer of a request was lost. Where it is not 0, FILE is as it was, unless
standard error says that its folder could not be synced.";

/// Of `load`.
pub(crate) const ABOUT_LOAD: &str = "\
Reads rows, a line `K V` each, by rising keys, as `blink rows` prints them, and
writes an image of them to FILE as `blink dump` does. Each leaf has as many rows
as --fill says, and each page above as many children, but two at least; the
leftmost page of a level has what is left. So 65536 pages hold 823,000 rows. An
index from an image grows as rows come, and full pages split.

Examples:
  printf '5 50\\n6 60\\n' | blink load index.image
  blink rows old.image | blink load new.image --pages 65536 --fill 10

Exit status: 0 all is well; 2 the command line is refused; 3 reading or writing
failed, a line is bad, which standard error names, or the rows have no room; 4
out of memory. Where it is not 0, FILE is as it was, unless standard error says
that its folder could not be synced.";

/// Of `rows`.
pub(crate) const ABOUT_ROWS: &str = "\
Prints a line `K V` for each row of the image, by rising keys.

Examples:
  blink rows index.image | wc -l
  blink rows index.image >index.rows

Exit status: 0 all is well; 1 the image breaks a rule, which standard error
names as `blink check` does; 3 reading or writing failed; 4 out of memory.";

/// Of `log`.
pub(crate) const ABOUT_LOG: &str = "\
A log is a file `log` in a folder: what came into a map and what went, in
records of which each counts as a whole or not at all.
  rows FOLDER   prints a line `K V` for each row of its map, by rising keys
  check FOLDER  prints `ok rows N`; or standard error says from which byte on
                the log is damaged
  load FOLDER   makes a log of the lines `K V` on standard input, by rising
                keys; a folder that has a log keeps it
rows and check write nothing, and need no room on the disk. A last record that
a crash has cut short counts as not there.

Examples:
  mkdir kept && printf '5 50\\n6 60\\n' | blink log load kept
  blink log rows kept

Exit status: 0 all is well; 3 reading or writing failed, the log is damaged, or
another process has it; 4 out of memory.";

/// Of `check`.
pub(crate) const ABOUT_CHECK: &str = "\
Prints `ok rows A leaves B inners C levels D unposted E thin F`, or `fault Cn
page X`: the least rule that is broken, and the least page that breaks it.
  C1  the head and the length are an image's
  C2  each page's words are all zero, or a page's
  C3  page 0 is the anchor, and no other page is one
  C4  each level has a leftmost page, which begins at 0
  C5  each link leads to the page that begins where this one ends
  C6  each page stands on the chain of its level
  C7  each entry names a page one level lower that begins with its key
  C8  no page is dead

Examples:
  blink check index.image
  blink check index.image && echo sound

Exit status: 0 sound; 1 a rule is broken; 3 reading or writing failed; 4 out of
memory.";

/// Of `draw`.
pub(crate) const ABOUT_DRAW: &str = "\
Prints each level of the tree as a row of pages: number, keys, entries, links,
and which pages are thin or listed by no parent. A level of more than 64 pages
is summed up. A file that is no sound image is drawn as far as it can be read,
and the last line names the rule that it breaks (`blink help check`).
With --html the command blink prints a page for a browser in place of it, which
shows an image of up to 1048576 pages at any size: one file, without a network.

Examples:
  blink draw index.image
  blink draw index.image --svg >index.svg
  blink draw index.image --html >index.html

Exit status: 0 sound; 1 a rule is broken; 3 reading or writing failed; 4 out of
memory.";

/// Of `replay`.
pub(crate) const ABOUT_REPLAY: &str = "\
The lines of a script; the first is `pages N`:
  find K, insert K V, put K V, delete K, change K OLD NEW, part K  each starts a
                     process
  insertpost K V     so does this: an insertion that lists what it splits itself
  putpost K V        and this: a put that does so
  findnear K X       and this: a search that looks first at page X
  partdown K         and this: a part downwards, by falling keys
  partnear K X       and this: a part that does so
  post L K, compress L K, lower, reclaim X  and these, which keep up the tree
  turn P, turn P X   one turn of process P; a take tries page X
  refuse P           process P is refused what it is about to reserve
  run P M            turns of process P, at most M, until it has answered
  settle M           turns of those that wait for none, at most M, to the end
Processes are numbered from 1 in the order in which they start. Each turn prints
its event. With --pages a line `P page X CONTENT` behind each put of page X says
what stands there then. With --html the command blink prints a page for a
browser, which plays the script event by event: one file, without a network.

Examples:
  blink replay split.script
  blink replay split.script --html >split.html
  printf 'pages 4\\ninsert 5 50\\nfind 5\\nrun 1 4\\nrun 2 9\\nrun 1 9\\n' >s
  blink replay s

Exit status: 0 all is well; 3 reading or writing failed, or a line is bad; 4 out
of memory.";
