//! The formats, as the program's help shows them. `make docs` writes this file from docs/FORMATS.md.

pub const SCRIPT: &str = "\
A script lists the CSR writes of firmware, and says when they take effect:

  pmp 1
  # one region of 4 KiB, readable
  write pmpaddr0 0x200001ff
  write pmpcfg0 0x19
  publish

It has at most 1,048,576 bytes, in version 3 67,108,864. Spaces and tabs
separate words, and LF or CR LF ends a line. The first line is `pmp 1` for a
unit of 16 entries, `pmp 2` for one of 64, or `pmp 3` for any hart. Lines
without words, or whose first word begins with `#`, are skipped. All others are
one of:
  write NAME VALUE  adds a write of VALUE to the register NAME to the open batch
  reset             adds a reset of the hart to the open batch
  publish           makes the open batch, perhaps empty, the next publication,
                    and opens an empty batch
  NAME              mseccfg; pmpcfg0, pmpcfg2, .. pmpcfg14, on RV32 also the odd
                    ones and mseccfgh; pmpaddr0 to pmpaddr63; or the register's
                    number after 0x
  VALUE             a number

A write or a reset is an event. The events of a publication take effect
together, in their order. A batch has at most 64 events, a script 1,048,576, and
as many publications. At its end no event is open. `pmp import` makes scripts of
QEMU's, Spike's and debuggers' logs.

In version 3 a script also says what the hart is, and what its registers hold at
first:

  pmp 3
  hart entries 8
  hart smepmp no
  set pmpaddr0 0x200001ff
  set pmpcfg0 0x99
  expect pmpcfg0 0x99
  write pmpcfg0 0
  expect pmpcfg0 0x99
  publish

A line after the first may also be one of these:
  hart xlen WORD                   XLEN, 32 or 64; by default 64
  hart entries N                   how many entries the hart has, 0 to 64; by
                                   default 16
  hart grain BYTES                 its grain: 4, 8, 16 and so on to 4,096 bytes;
                                   by default 4
  hart bits N                      how many bits its physical addresses have: 34
                                   to 56, by default 56; on RV32 32 to 34, by
                                   default 34
  hart smepmp WORD                 yes or no: whether it has Smepmp, with
                                   mseccfg; by default yes
  set NAME VALUE                   the register holds VALUE before the first
                                   event; a reset clears this, and keeps the
                                   hart
  expect NAME VALUE                the register reads VALUE here, after the
                                   events above this line; pmp writes has a row
                                   for it
  set-bits NAME VALUE              a write as CSRRS makes it: what the register
                                   reads here, with the bits of VALUE set
  clear-bits NAME VALUE            a write as CSRRC makes it: with these bits
                                   cleared
  entry I off                      the configuration byte of entry I becomes 0
  entry I na4 FIRST 4 RIGHTS       entry I gets the four bytes from FIRST on,
                                   with these rights
  entry I napot FIRST SIZE RIGHTS  it gets SIZE bytes, a power of two of 8 or
                                   more
  entry I tor FIRST END RIGHTS     it gets the bytes from FIRST up to, but not
                                   including, END
  mark MOMENT                      names the moment here, between two
                                   publications
  publish MOMENT                   as publish, and names the moment after it
  RIGHTS                           r or -, w or -, x or -; the word L after them
                                   locks the entry

`hart` and `set` lines are the head, before any event or `publish`, in any
order, each field and register once.

If SCRIPT, OLD or NEW is a folder, `check`, `why`, `audit`, `policy`, `map`,
`entries`, `writes`, `lint` and `diff` run for each hart: each file in it whose
name ends with `.pmp` and doesn't begin with a dot. Each line begins with that
name and a comma. The status is 0 if it is 0 for each hart. `pmp harts` writes
where harts of a folder differ from the first one: the rows of `diff`, each
after the other hart's name, and with `--locks` those of locks too.

A number is 1 to 20 decimal digits, or `0x` and 1 to 16 hexadecimal digits,
below 2^64. Without `0x` it is decimal.

`pmp help script`, `pmp help trace`, `pmp help names` and `pmp help rows`
describe formats, and `pmp help COMMAND` a command, its arguments and its
output. docs/FORMATS.md describes all of it byte by byte, and has every refusal
by its number.";

pub const TRACE: &str = "\
A trace lists accesses, each with how many publications of a script are done
before it:

  after,mode,kind,start,length
  0,U,load,0x80000000,4
  1,U,load,0x80000000,4

It is CSV of at most 16,777,216 bytes, with `pmp audit --long` of any length.
The first record is that header, all others are numbered rows. Numbers have no
blanks, blank lines are no rows, and there are no comments.
  after   how many publications are done: a number, at most as many as the
          script has, and not below that of the row before; or with pmp 3 last,
          last-N or MOMENT, as in policies
  mode    M, S or U
  kind    fetch, load or store
  start   the byte address of the access's first byte, a number, or with --names
          a name; the access ends at or below 2^56
  length  how many bytes it has, a number: 1 to 4,096

A number is 1 to 20 decimal digits, or `0x` and 1 to 16 hexadecimal digits,
below 2^64. Without `0x` it is decimal.

`pmp help script`, `pmp help trace`, `pmp help names` and `pmp help rows`
describe formats, and `pmp help COMMAND` a command, its arguments and its
output. docs/FORMATS.md describes all of it byte by byte, and has every refusal
by its number.";

pub const NAMES: &str = "\
With `--names FILE`, an address may be a name or NAME`+`OFFSET, a number of
bytes after its first byte: START of `check` and `why`, `start` of a trace
(without `--long`), `first` and `last` of a policy. NAME is its first byte, and
as `last` its last one, so `heap,heap` is all of it. `policy`, `map`, `entries`,
`lint`, `diff` and `harts` write after each row a comma and the names of its
bytes, from FIRST to LAST, in FILE's order and with blanks between: NAME if the
range has all bytes of the name, NAME`+0x`OFFSET if only a part, OFFSET bytes
into it. `picture` has them as a last column. FILE has the line
`first,last,name`, and then one for each name, as
`0x80000000,0x8003ffff,firmware` and `0x10000000,0x10000fff,uart`: the byte
address of the first byte; that of the last, not below; and the name, 1 to 64
printable bytes without blank, `\"`, `+` and `,`, the first one no digit.

A number is 1 to 20 decimal digits, or `0x` and 1 to 16 hexadecimal digits,
below 2^64. Without `0x` it is decimal.

Example:
  printf 'first,last,name\\n0x80000000,0x8003ffff,firmware\\n' > names.csv
  echo 'pmp 1' | pmp check stdin U load firmware+0x10 8 --names names.csv
  It answers 1,fault,5,none,

`pmp help script`, `pmp help trace`, `pmp help names` and `pmp help rows`
describe formats, and `pmp help COMMAND` a command, its arguments and its
output. docs/FORMATS.md describes all of it byte by byte, and has every refusal
by its number.";

pub const ROWS: &str = "\
Each line ends with LF. Except in the scripts and plans of `import` and `plan`,
a register's value is `0x` and 16 hexadecimal digits, a byte address 14 of them
without `0x`, both in lower case, and every other number decimal. Rights are `r`
or `-`, `w` or `-`, `x` or `-`: MRIGHTS for M-mode, SURIGHTS for S- and U-mode.

`pmp check` writes `N,ANSWER,FAULT,CAUSE,ENTRY` for its access, and `pmp audit`
for each row of the trace, in order.

  1,fault,5,none,

`pmp policy` writes a row for each row of the policy, in order: `N,holds,,,,`,
or `N,broken,DONE,FIRST,LAST,OWNER` with only its first breach, by time, then
address, or `N,unmet,,,,`; then, if the header has them, `,NAME,COMMENT`. With
`--all` a broken row has a row for each breach, where it begins: for each run of
bytes with one owner that breaks it, unless a run with the same first and last
byte did so after one publication (or event) less. Missing locks of `held` are
told only if none of the row's bytes is open at any moment.

  1,broken,0,00000000000000,0000000000000f,-

`pmp dump` writes each register's name, a space and its value: `pmpcfg0`,
`pmpcfg2` and so on, on RV32 `pmpcfg1` too, `pmpaddr0` and so on, as far as the
hart has entries, and `mseccfg`: 19 lines in version 1, 73 in 2.

  pmpcfg0 0x000000000000001b
  pmpcfg2 0x0000000000000000
  mseccfg 0x0000000000000000

`pmp map` writes `FIRST,LAST,OWNER,MRIGHTS,SURIGHTS` for each run: adjacent
bytes with one owner, or with none.

  00000000000000,00000000000007,0,rwx,rw-
  00000000000008,ffffffffffffff,-,rwx,---

`pmp picture` writes what `pmp map` does as an SVG document for a browser: a
band for each run line, all of equal height, from byte 0 at the top to byte 2^56
- 1 at the bottom, coloured by the rights of S-mode and U-mode. Above the bands
it says how many publications are done, and whether MML, MMWP and RLB are on.

  <svg xmlns='http://www.w3.org/2000/svg' width='960' height='200' viewBox='0 0 960 200'>

`pmp entries` writes
`ENTRY,MATCHING,FIRST,LAST,MRIGHTS,SURIGHTS,LOCK,ADDRESS,SINCE,HOLDS` for each
entry, in order.

  0,napot,00000000000000,00000000000007,---,---,frozen,frozen,1,1

`pmp writes` writes
`N,PUBLICATION,LINE,REGISTER,WRITTEN,BEFORE,AFTER,EFFECT,REASONS,ENTRIES` for
each event of the script, in order, and then for each `expect`, by line.

  1,1,2,pmpcfg0,0x0000000000000099,0x0000000000000000,0x0000000000000099,stored,,
  2,1,3,pmpcfg0,0x0000000000000000,0x0000000000000099,0x0000000000000099,ignored,frozen,0

`pmp lint` writes `NUMBER,NAME,LINE,ENTRY,FIRST,LAST,MODES` for what an
experienced reader would remark on, by number and then by entry, address or
event. `--accept NAME` leaves out findings of NAME, `--accept NAME:LINE` those
at LINE, and commas separate several.

  2,mmwp-off,2,,,,

`pmp why` writes
`SINCE,ANSWER,FAULT,CAUSE,ENTRY,MATCHING,FIRST,LAST,BITS,TABLE,LOCK,HELD,CONFIGURED,ADDRESSED,LOWEND`:
how an access is decided, since when, and what the deciding entry is.

  1,fault,7,rule,0,napot,00000080000000,00000080000fff,1100,plain,frozen,held,3,2,
  0,fault,7,none,
  1,fault,7,rule,0

`pmp diff` writes `FIRST,LAST,MOLD,SUOLD,MNEW,SUNEW,CHANGE` for the longest
ranges of bytes whose rights differ between two scripts' register files, whoever
owns the bytes, from the lowest address on.

  00000000000000,00000000000007,rwx,---,rwx,rw-,more

`pmp import` writes a script of version 3 from a log: what the hart is and then,
after a comment with the number of the log's line, what a line says. `--folder
FOLDER` makes a folder with one for each hart that writes, like `hart0.pmp`.

  pmp 3
  # from QEMU's trace, hart 0
  mark start
  # line 1
  write pmpcfg0 0x18
  publish
  pmp: note: hart 0, 16 entries, since the log is read once

`why`, `policy`, `map`, `entries`, `writes`, `lint`, `diff` and `harts` write
their rows in another form with `--format`: `json`, an array with an object for
each row, on a line each, or `markdown`, a table with a head. `csv` is the rows'
own form. The columns have the names of these pages in lower case; with a folder
the first one is `hart`, and with `--names` the last one is `names`. `policy`
and `lint` also take `junit`, a suite of tests with a case for each row, and
`sarif`, which code hosts show beside the lines of a script or a policy. The
exit status is the same.

`pmp help script`, `pmp help trace`, `pmp help names` and `pmp help rows`
describe formats, and `pmp help COMMAND` a command, its arguments and its
output. docs/FORMATS.md describes all of it byte by byte, and has every refusal
by its number.";

pub const MORE: &str = "\
Exit status:
  0  every access is allowed, or decided as --expect says, every row of a policy
     holds, or is unmet with if-any, every write is stored as written, lint,
     diff or harts has nothing to write, or what was asked for is written
  1  an access is denied, or decided as --expect doesn't say, a row of a policy
     is broken, or unmet without if-any, a write isn't stored as written, a
     register differs from what a script expects, or lint, diff or harts writes
     a row
  2  no answer: the words or an input are at fault
  3  no answer: memory, an input, the output or a checker failed

Example:
  echo 'pmp 1' | pmp check stdin U load 0x80000ff8 8 --expect fault
  It answers 1,fault,5,none,

`pmp help script`, `pmp help trace`, `pmp help names` and `pmp help rows`
describe formats, and `pmp help COMMAND` a command, its arguments and its
output. docs/FORMATS.md describes all of it byte by byte, and has every refusal
by its number.";

pub const MORE_OF_CHECK: &str = "\
A number is 1 to 20 decimal digits, or `0x` and 1 to 16 hexadecimal digits,
below 2^64. Without `0x` it is decimal.

`pmp check` writes `N,ANSWER,FAULT,CAUSE,ENTRY` for its access, and `pmp audit`
for each row of the trace, in order.
  N       the row's number, from 1
  ANSWER  allow or fault
  FAULT   empty if the access is allowed, otherwise its exception code: 1 for a
          fetch, 5 for a load, 7 for a store
  CAUSE   rule if the first entry that matches any byte of the access matches
          every byte, split if it doesn't, none if no entry matches any byte
  ENTRY   that entry's number, empty for none

Exit status:
  0  the answer is allow, or the one that --expect names
  1  it is the other one
  2  no answer: the words or an input are at fault
  3  no answer: memory, an input, the output or a checker failed

Example:
  echo 'pmp 1' | pmp check stdin U load 0x80000ff8 8 --expect fault
  It answers 1,fault,5,none,

docs/FORMATS.md describes all of it byte by byte, and has every refusal by its
number.";

pub const MORE_OF_WHY: &str = "\
A number is 1 to 20 decimal digits, or `0x` and 1 to 16 hexadecimal digits,
below 2^64. Without `0x` it is decimal.

`pmp why` writes
`SINCE,ANSWER,FAULT,CAUSE,ENTRY,MATCHING,FIRST,LAST,BITS,TABLE,LOCK,HELD,CONFIGURED,ADDRESSED,LOWEND`:
how an access is decided, since when, and what the deciding entry is.
  SINCE                        the first number of publications from which on
                               the access is decided so, up to the moment asked
                               for
  ANSWER, FAULT, CAUSE, ENTRY  as in report rows
  MATCHING, FIRST, LAST        the entry's A, and the bytes that it matches, as
                               in entry lines
  BITS                         its bits L, R, W and X
  TABLE                        what reads them: smepmp, the truth table of
                               Smepmp, if MML is 1, otherwise plain
  LOCK                         -, bypassed or frozen, as in entry lines
  HELD                         held if it and all entries before it are frozen,
                               otherwise -
  CONFIGURED, ADDRESSED        the lines that changed its configuration byte and
                               its address register last, 0 if none did
  LOWEND                       if it is TOR and not entry 0, the line that
                               changed the address register before it last;
                               otherwise empty

If no entry decides, the fields from ENTRY on are empty. Then come report rows
of the same access, up to the script's end, one for each series of moments with
the same ANSWER, CAUSE and ENTRY. N is the first of them; 0 is before the first
publication.

`pmp check` writes `N,ANSWER,FAULT,CAUSE,ENTRY` for its access, and `pmp audit`
for each row of the trace, in order.
  N       the row's number, from 1
  ANSWER  allow or fault
  FAULT   empty if the access is allowed, otherwise its exception code: 1 for a
          fetch, 5 for a load, 7 for a store
  CAUSE   rule if the first entry that matches any byte of the access matches
          every byte, split if it doesn't, none if no entry matches any byte
  ENTRY   that entry's number, empty for none

Exit status:
  0  the access is allowed
  1  it is denied
  2  no answer: the words or an input are at fault
  3  no answer: memory, an input, the output or a checker failed

Example:
  printf 'pmp 1\\nwrite pmpaddr0 0x200001ff\\nwrite pmpcfg0 0x99\\npublish\\n' | pmp why stdin U store 0x80000000 8
  It answers 1,fault,7,rule,0,napot,00000080000000,00000080000fff,1100,plain,frozen,held,3,2,

docs/FORMATS.md describes all of it byte by byte, and has every refusal by its
number.";

pub const MORE_OF_AUDIT: &str = "\
A number is 1 to 20 decimal digits, or `0x` and 1 to 16 hexadecimal digits,
below 2^64. Without `0x` it is decimal.

`pmp check` writes `N,ANSWER,FAULT,CAUSE,ENTRY` for its access, and `pmp audit`
for each row of the trace, in order.
  N       the row's number, from 1
  ANSWER  allow or fault
  FAULT   empty if the access is allowed, otherwise its exception code: 1 for a
          fetch, 5 for a load, 7 for a store
  CAUSE   rule if the first entry that matches any byte of the access matches
          every byte, split if it doesn't, none if no entry matches any byte
  ENTRY   that entry's number, empty for none

`pmp audit --long` takes a trace of any length, from a file or a pipe, and its
memory doesn't grow with it. It reads the trace once, in pieces of at most
8,388,608 bytes, and writes rows as pieces are decided, so a refusal may follow
whole rows, those of the trace's beginning. If standard error is a terminal and
standard output isn't, a line there says once a second how much was read.
`--jobs` and `--first-row` go only with `--long`, `--checkers` only without.

Exit status:
  0  every access of the trace, if it has any, is allowed
  1  the unit denies one of them
  2  no answer: the words or an input are at fault
  3  no answer: memory, an input, the output or a checker failed

Example:
  printf 'after,mode,kind,start,length\\n0,M,load,0x0,8\\n' > trace.csv
  echo 'pmp 1' | pmp audit stdin trace.csv
  It answers 1,allow,,none,

Example of long traces:
  echo 'pmp 1' > reset.pmp
  printf 'after,mode,kind,start,length\\n0,M,load,0x0,8\\n' > part.csv
  cat part.csv | pmp audit --long --first-row 1001 reset.pmp stdin
  It answers 1001,allow,,none,

docs/FORMATS.md describes all of it byte by byte, and has every refusal by its
number.";

pub const MORE_OF_POLICY: &str = "\
A number is 1 to 20 decimal digits, or `0x` and 1 to 16 hexadecimal digits,
below 2^64. Without `0x` it is decimal.

A policy lists demands on ranges of bytes, over publications of a script:

  from,to,modes,kind,first,last,demand
  1,,SU,store,0x80000000,0x8007ffff,never
  3,4,S,any,0x80200000,0x802fffff,always

It is read as a trace is: CSV of at most 16,777,216 bytes, that header, and
numbered rows:
  from         the first moment that the row asks about: a number of
               publications, at most as many as there are; 0 is before the first
  to           the last one, not below from and at most as many as there are; if
               empty, the number of all
  modes        one to three of the letters M, S and U, none twice
  kind         fetch, load, store or any
  first, last  the byte addresses of the first byte and of the last one,
               inclusive: numbers below 2^56, or with --names names, the last
               not below the first
  demand       never, always or held

With a script of version 3, `from` and `to` may also name a moment, and so
survive a change of the firmware. `--after` takes these words too, and so does
the field `after` of a trace, except `mml`, `mmwp` and `rlb-clear`:
  last         after the last publication
  last-N       N publications before that; N is a number
  mml or mmwp  the first one from which on that bit of mseccfg is set to the end
  rlb-clear    the first one from which on RLB is clear to the end
  MOMENT       the one that the script names so; a name that it doesn't have is
               refused (58)

If such a moment never comes, `--after` and a trace are refused (58), and a
policy row is unmet, as it is if `to` comes before `from`. With a blank and
`if-any` after a moment's name, an unmet row doesn't fail the policy. A byte is
open to a mode and a kind if the access of that one byte is allowed.
  never   after none of these publications is a byte of the range open to one of
          the modes by the kind, or for any by one of the three
  always  after each of them every byte is open to each of the modes by the
          kind, or for any by all three
  held    never, and after the last of these publications no list of writes
          without a reset opens one of the bytes: each one's owner and all
          entries before it are frozen then, or, if no entry owns it, all
          entries are

With the header `name,from,to,modes,kind,first,last,demand,comment` each row has
a name and a comment for people: any text without control bytes (below 0x20, or
0x7F), or none. Two rows may have the same name. An example is
`firmware,1,,SU,any,0x80000000,0x8007ffff,never,\"closed to all but machine mode,
from the first publication on\"`.

A policy without rows holds, and a note says that it has none. With `--strict`
it is refused (71).

`pmp policy --from SCRIPT` writes a policy to begin with: for M-mode, and for S-
and U-mode, which have the same rights, and for each of the three kinds, a row
`never` for each of the longest ranges of bytes that are closed to it after the
last publication. Each of these rows holds for that script. Take out those that
a later boot may break.

`pmp policy` writes a row for each row of the policy, in order: `N,holds,,,,`,
or `N,broken,DONE,FIRST,LAST,OWNER` with only its first breach, by time, then
address, or `N,unmet,,,,`; then, if the header has them, `,NAME,COMMENT`. With
`--all` a broken row has a row for each breach, where it begins: for each run of
bytes with one owner that breaks it, unless a run with the same first and last
byte did so after one publication (or event) less. Missing locks of `held` are
told only if none of the row's bytes is open at any moment.
  N              the row's number, from 1
  DONE           after how many publications it is broken; if only the locks of
                 held are missing, the last of those that the row asks about.
                 With --each-write, by which a policy also asks after each event
                 after publication from, up to to, it is after how many events,
                 as N of the event rows; from and to still count publications
  FIRST, LAST    the byte addresses of the first byte of the range at fault
                 there, and of the last one after it with the same owner, within
                 the range
  OWNER          the number of the entry that owns them, or - if no entry
                 matches
  NAME, COMMENT  the row's, as fields of CSV: in quotes if they have a comma or
                 a quote, and then with \"\" for a quote

Exit status:
  0  every row, if there are any, holds, or is unmet with if-any
  1  a row is broken, or unmet without if-any
  2  no answer: the words or an input are at fault
  3  no answer: memory, an input, the output or a checker failed

Example:
  printf 'pmp 1\\nwrite pmpcfg0 0x1b\\npublish\\n' | pmp policy --from stdin
  It answers from,to,modes,kind,first,last,demand

Example of the verdict rows:
  printf 'from,to,modes,kind,first,last,demand\\n0,,MU,any,0,15,never\\n' > p.csv
  echo 'pmp 1' | pmp policy stdin p.csv
  It answers 1,broken,0,00000000000000,0000000000000f,-

docs/FORMATS.md describes all of it byte by byte, and has every refusal by its
number.";

pub const MORE_OF_DUMP: &str = "\
A number is 1 to 20 decimal digits, or `0x` and 1 to 16 hexadecimal digits,
below 2^64. Without `0x` it is decimal.

`pmp dump` writes each register's name, a space and its value: `pmpcfg0`,
`pmpcfg2` and so on, on RV32 `pmpcfg1` too, `pmpaddr0` and so on, as far as the
hart has entries, and `mseccfg`: 19 lines in version 1, 73 in 2.

With `--script` it writes a script of version 3 that begins with this register
file and has no publication: the lines of the hart, with its XLEN if that is 32,
and, in the same order, a `set` line for each register that doesn't hold 0.

Exit status:
  0  the answer is written
  2  no answer: the words or an input are at fault
  3  no answer: memory, an input, the output or a checker failed

Example:
  printf 'pmp 1\\nwrite pmpcfg0 0x1b\\npublish\\n' | pmp dump stdin | grep cfg
  It answers pmpcfg0 0x000000000000001b

docs/FORMATS.md describes all of it byte by byte, and has every refusal by its
number.";

pub const MORE_OF_MAP: &str = "\
A number is 1 to 20 decimal digits, or `0x` and 1 to 16 hexadecimal digits,
below 2^64. Without `0x` it is decimal.

`pmp map` writes `FIRST,LAST,OWNER,MRIGHTS,SURIGHTS` for each run: adjacent
bytes with one owner, or with none.
  FIRST, LAST        the byte addresses of the run's first and last byte
  OWNER              the lowest-numbered entry that matches these bytes, or - if
                     no entry does
  MRIGHTS, SURIGHTS  what M-mode, and what S-mode and U-mode, may do there: r, w
                     and x, or - for each

An access within one run is decided by its rights. One across runs is denied,
`split` by its lowest-numbered owner. The runs cover byte 0 to byte 2^56 - 1,
and neighbours have different owners: at most 33 with 16 entries, 129 with 64.

Exit status:
  0  the answer is written
  2  no answer: the words or an input are at fault
  3  no answer: memory, an input, the output or a checker failed

Example:
  printf 'pmp 1\\nwrite pmpcfg0 0x1b\\npublish\\n' | pmp map stdin
  It answers 00000000000000,00000000000007,0,rwx,rw-

docs/FORMATS.md describes all of it byte by byte, and has every refusal by its
number.";

pub const MORE_OF_PICTURE: &str = "\
A number is 1 to 20 decimal digits, or `0x` and 1 to 16 hexadecimal digits,
below 2^64. Without `0x` it is decimal.

`pmp picture` writes what `pmp map` does as an SVG document for a browser: a
band for each run line, all of equal height, from byte 0 at the top to byte 2^56
- 1 at the bottom, coloured by the rights of S-mode and U-mode. Above the bands
it says how many publications are done, and whether MML, MMWP and RLB are on.
  First byte, Last byte  FIRST and LAST of the run line, after 0x
  Size                   to the end for the run that ends at byte 2^56 - 1;
                         otherwise how many bytes it has, in the largest of PiB,
                         TiB, GiB, MiB, KiB that gives a whole number, or in
                         bytes
  Owner                  entry and its number, or no entry
  Machine                MRIGHTS
  Supervisor, user       SURIGHTS
  Lock                   if the owner is frozen, a lock: a full one and holds if
                         all entries before it are frozen too, an empty one and
                         frozen if one isn't; an open one and bypassed if its L
                         and RLB are 1; otherwise nothing
  Names                  with --names the names of the run's bytes, as after a
                         run line

Exit status:
  0  the answer is written
  2  no answer: the words or an input are at fault
  3  no answer: memory, an input, the output or a checker failed

Example:
  echo 'pmp 1' | pmp picture stdin | grep '<svg'
  It answers <svg xmlns='http://www.w3.org/2000/svg' width='960' height='200' viewBox='0 0 960 200'>

docs/FORMATS.md describes all of it byte by byte, and has every refusal by its
number.";

pub const MORE_OF_ENTRIES: &str = "\
A number is 1 to 20 decimal digits, or `0x` and 1 to 16 hexadecimal digits,
below 2^64. Without `0x` it is decimal.

`pmp entries` writes
`ENTRY,MATCHING,FIRST,LAST,MRIGHTS,SURIGHTS,LOCK,ADDRESS,SINCE,HOLDS` for each
entry, in order.
  ENTRY              the entry's number
  MATCHING           its A: off, tor, na4 or napot
  FIRST, LAST        the byte addresses of the first and the last byte that it
                     matches, or - if it matches none
  MRIGHTS, SURIGHTS  what M-mode, and what S-mode and U-mode, may do if it
                     decides: r, w and x, or - for each
  LOCK               - if its L is 0; bypassed if its L and RLB are 1; frozen if
                     its L is 1 and RLB is 0: then the entry is frozen
  ADDRESS            frozen if its address register takes no write, because the
                     entry is frozen, or the next one is frozen and TOR;
                     otherwise -
  SINCE              if it is frozen, the publication from which on it is so,
                     with no reset after it, 0 if the script begins so;
                     otherwise empty
  HOLDS              if it and all entries before it are frozen, the publication
                     from which on all of them are; otherwise empty

A frozen entry keeps its configuration byte and the bytes that it matches
through all later writes without a reset. From publication HOLDS on, until a
reset, no write allows what the entry denies, and none denies what it allows
while MML doesn't change. If an entry is frozen and HOLDS is empty, one before
it isn't frozen, and may be able to take its bytes.

Exit status:
  0  the answer is written
  2  no answer: the words or an input are at fault
  3  no answer: memory, an input, the output or a checker failed

Example:
  printf 'pmp 1\\nwrite pmpcfg0 0x98\\npublish\\n' | pmp entries stdin | grep frozen
  It answers 0,napot,00000000000000,00000000000007,---,---,frozen,frozen,1,1

docs/FORMATS.md describes all of it byte by byte, and has every refusal by its
number.";

pub const MORE_OF_WRITES: &str = "\
A number is 1 to 20 decimal digits, or `0x` and 1 to 16 hexadecimal digits,
below 2^64. Without `0x` it is decimal.

`pmp writes` writes
`N,PUBLICATION,LINE,REGISTER,WRITTEN,BEFORE,AFTER,EFFECT,REASONS,ENTRIES` for
each event of the script, in order, and then for each `expect`, by line.
  N            the event's number, from 1; empty for an expect, which is no
               event
  PUBLICATION  the number of its publication, from 1; empty for an expect
  LINE         the number of its line in the script, from 1
  REGISTER     the register's name, or reset, with the fields after it empty
               except EFFECT
  WRITTEN      the value that is written, or expected
  BEFORE       the value that the register reads before the write; empty for an
               expect
  AFTER        the value that it reads after the write, or at an expect after
               the events above the line, published or not
  EFFECT       stored if AFTER is WRITTEN; otherwise ignored if AFTER is BEFORE;
               otherwise altered. For a reset it is reset; for an expect it is
               expected if AFTER is WRITTEN, otherwise differs
  REASONS      why AFTER isn't WRITTEN, by the words of the next table, in its
               order and separated by spaces; empty for an expect, and for a
               write if and only if it is stored
  ENTRIES      the entries for which frozen, tor, reserved, lockdown or grain is
               a reason, ascending, separated by spaces

The status is 1 if a write isn't `stored` or an `expect` `differs`. With
`--accept REASON` writes that have no other reason don't count, with `--accept
differs` no `expect` does, and with `:LINE` behind the word only that line
doesn't. Commas separate several, as `bits:7,absent`. No row is left out.
  absent    the value isn't 0 for an entry, or for mseccfg or mseccfgh, that the
            hart doesn't have
  bits      the value has bits that the register doesn't have: of an address 63
            to 54, or those above the hart's address bits; 6 and 5 of a
            configuration byte; 63 to 3 of mseccfg, and all of mseccfgh, if the
            hart has them
  frozen    an entry is frozen, and the value has another byte or address for it
            than its own
  tor       the entry isn't frozen, the next one is and is TOR, and the value is
            another address
  reserved  MML is 0, and a byte for an entry that isn't frozen has W without R
  lockdown  MML is 1, RLB is 0, and a byte for an entry that isn't frozen is,
            without bits 6 and 5, a rule by which M-mode executes: L R W X 1001,
            1010, 1011 or 1101
  sticky    MML or MMWP is 1, and its bit in the value is 0
  bypass    RLB is 0, its bit in the value is 1, and some entry has L = 1, if
            the hart has mseccfg
  grain     the grain is above 4 bytes, and the value has NA4 for an entry that
            isn't frozen, or is an address whose bits below the grain don't read
            so with its entry as it is

Exit status:
  0  every write is stored as written, and all that is expected is there
  1  one isn't
  2  no answer: the words or an input are at fault
  3  no answer: memory, an input, the output or a checker failed

Example:
  printf 'pmp 1\\nwrite pmpcfg0 0x99\\nwrite pmpcfg0 0\\npublish\\n' | pmp writes stdin
  It answers 1,1,2,pmpcfg0,0x0000000000000099,0x0000000000000000,0x0000000000000099,stored,,

docs/FORMATS.md describes all of it byte by byte, and has every refusal by its
number.";

pub const MORE_OF_LINT: &str = "\
A number is 1 to 20 decimal digits, or `0x` and 1 to 16 hexadecimal digits,
below 2^64. Without `0x` it is decimal.

`pmp lint` writes `NUMBER,NAME,LINE,ENTRY,FIRST,LAST,MODES` for what an
experienced reader would remark on, by number and then by entry, address or
event. `--accept NAME` leaves out findings of NAME, `--accept NAME:LINE` those
at LINE, and commas separate several.
  1 rlb-left-on         in the end RLB is 1 and an entry has L = 1, even one
                        that is OFF: no lock binds. Clear RLB in mseccfg once
                        the entries are locked.
  2 mmwp-off            in the end MML is 1 and MMWP is 0: M-mode may read and
                        write where no entry matches. Set MMWP in mseccfg
                        together with MML.
  3 open-before-locked  in the end an entry isn't frozen, and one with a higher
                        number is: it may still take bytes of that one. Lock
                        this entry too, or put it behind those that are locked.
  4 never-decides       in the end an entry is on and owns no byte: it matches
                        none, or entries with lower numbers match them all. Turn
                        the entry off, or put it before the entries that take
                        its bytes.
  5 write-and-execute   in the end a mode may both write and execute these
                        adjacent bytes of one owner, or of none. Take W or X
                        away, or part the bytes into code and data.
  6 open-between        S and U have a right to these bytes after a single event
                        that they have neither before its publication nor after
                        it. Write the entry that closes the bytes before the one
                        that opens others.
  7 late-write          a frozen entry is a reason why a register doesn't read
                        what is written to it. Write the register before the
                        entry is locked, or leave the write out.
  LINE         for 1 the line that changed RLB last, for 2 MML or MMWP, for 3 to
               5 the entry's byte or its address register; 0 if none did, or if
               no entry owns the bytes; for 6 and 7 the event's own line
  ENTRY        the entry's number; empty for 1, 2 and 6, and if no entry owns
               the bytes
  FIRST, LAST  the byte addresses of the first and the last byte that the entry
               matches, for 5 and 6 of the bytes that are found; otherwise empty
  MODES        the letters of the modes, M, SU or MSU, for 5 and 6; otherwise
               empty

Exit status:
  0  there is no row to write
  1  rows were written
  2  no answer: the words or an input are at fault
  3  no answer: memory, an input, the output or a checker failed

Example:
  printf 'pmp 1\\nwrite mseccfg 1\\npublish\\n' | pmp lint stdin
  It answers 2,mmwp-off,2,,,,

docs/FORMATS.md describes all of it byte by byte, and has every refusal by its
number.";

pub const MORE_OF_DIFF: &str = "\
A number is 1 to 20 decimal digits, or `0x` and 1 to 16 hexadecimal digits,
below 2^64. Without `0x` it is decimal.

`pmp diff` writes `FIRST,LAST,MOLD,SUOLD,MNEW,SUNEW,CHANGE` for the longest
ranges of bytes whose rights differ between two scripts' register files, whoever
owns the bytes, from the lowest address on.
  FIRST, LAST  the byte addresses of the first and the last byte
  MOLD, SUOLD  what M-mode, and what S-mode and U-mode, may do there by the old
               script: r, w and x, or - for each
  MNEW, SUNEW  the same by the new script
  CHANGE       more if the new rights have all of the old ones, less if the old
               rights have all of the new ones, otherwise both. --only more
               leaves out rows that say less, and --only less those that say
               more

Only the two states are compared, not what was open before them; the scripts may
be one file, or of different versions. With `--locks`, rows
`FIRST,LAST,LOCKOLD,LOCKNEW` follow, also by address: one for each of the
longest ranges of bytes whose lock differs. `--only` keeps them all.
  held      its owner and all entries before it are frozen, or no entry owns it
            and all entries are
  frozen    its owner is frozen, and an entry before that one isn't
  bypassed  its owner's L is 1 while RLB is 1
  -         its owner's L is 0, or no entry owns it and some entry isn't frozen

Exit status:
  0  there is no row to write
  1  rows were written
  2  no answer: the words or an input are at fault
  3  no answer: memory, an input, the output or a checker failed

Example:
  printf 'pmp 1\\nwrite pmpcfg0 0x1b\\npublish\\n' > new.pmp
  echo 'pmp 1' | pmp diff stdin new.pmp
  It answers 00000000000000,00000000000007,rwx,---,rwx,rw-,more

Example of the difference rows:
  printf 'pmp 1\\nwrite pmpcfg0 0x9b\\npublish\\n' > locked.pmp
  echo 'pmp 1' | pmp diff stdin locked.pmp --locks
  It answers 00000000000000,00000000000007,rwx,---,rw-,rw-,both

docs/FORMATS.md describes all of it byte by byte, and has every refusal by its
number.";

pub const MORE_OF_HARTS: &str = "\
A number is 1 to 20 decimal digits, or `0x` and 1 to 16 hexadecimal digits,
below 2^64. Without `0x` it is decimal.

If SCRIPT, OLD or NEW is a folder, `check`, `why`, `audit`, `policy`, `map`,
`entries`, `writes`, `lint` and `diff` run for each hart: each file in it whose
name ends with `.pmp` and doesn't begin with a dot. Each line begins with that
name and a comma. The status is 0 if it is 0 for each hart. `pmp harts` writes
where harts of a folder differ from the first one: the rows of `diff`, each
after the other hart's name, and with `--locks` those of locks too.

Exit status:
  0  there is no row to write
  1  rows were written
  2  no answer: the words or an input are at fault
  3  no answer: memory, an input, the output or a checker failed

Example:
  mkdir boot; echo 'pmp 1' | tee boot/hart0.pmp > boot/hart1.pmp
  printf 'pmp 1\\nwrite pmpcfg0 0x1b\\npublish\\n' > boot/hart2.pmp
  pmp harts boot
  It answers hart2.pmp,00000000000000,00000000000007,rwx,---,rwx,rw-,more

docs/FORMATS.md describes all of it byte by byte, and has every refusal by its
number.";

pub const MORE_OF_IMPORT: &str = "\
A number is 1 to 20 decimal digits, or `0x` and 1 to 16 hexadecimal digits,
below 2^64. Without `0x` it is decimal.

`pmp import` writes a script of version 3 from a log: what the hart is and then,
after a comment with the number of the log's line, what a line says. `--folder
FOLDER` makes a folder with one for each hart that writes, like `hart0.pmp`.
  qemu     pmpcfg_csr_write hart 0: write reg0, val: 0x18, the same with read,
           and those of pmpaddr with addr0 and of mseccfg, perhaps after a
           process and a time; resettable_reset_..
  gdb      pmpcfg0 0x18 24, as info registers prints, and Thread 2 (Thread 1.2
           (CPU#1 .., as thread apply all does; registers without threads are
           those of hart 0
  openocd  pmpcfg0 (/64): 0x0000000000000018, as reg prints
  spike    core   0: 3 0x0000000080000008 (0x3a0312f3) c928_pmpcfg0
           0x0000000000000018, as --log-commits writes
  dump     pmpcfg0 0x0000000000000018, as pmp dump writes
  a write, a read  A write becomes a write, and, without --bursts, a publication
                   of its own. A read becomes an expect, and so does the value
                   that a register has after a write in Spike's log.
  a register       One that a debugger shows becomes a set, unless it is zero.
  bits 63 to 54    On RV64, set and expect leave out these bits of a pmpaddr,
                   which QEMU before 11 keeps; a comment says so.
  resets           They become one reset if no line of the hart is between them,
                   and none before its first line.
  moments          mark start names the one before the first event, mark reset
                   the one after the first reset, and mark reset2, mark reset3
                   and so on those after the next ones, so that policies can
                   name them.
  the hart         A file is read twice. The script is of the hart that writes
                   first, or is shown first. It has 64 entries if a register of
                   an entry after the 16th isn't 0 (a write to the address
                   register of entry 16 alone, with which OpenSBI probes for it,
                   doesn't count), XLEN 32 if a line is one of RV32, and
                   otherwise the defaults of a script. Options give another
                   hart. Standard input is read once, so options or the defaults
                   give it. A line on standard error says what was taken.
  --folder         Each script is what --hart gives. Neither that nor standard
                   input goes with it (24), and harts have numbers below 64. The
                   folder must not exist yet, or be empty (42). It is written
                   beside its place, with .part after its name, and gets its
                   name when it is whole.

Exit status:
  0  the answer is written
  2  no answer: the words or an input are at fault
  3  no answer: memory, an input, the output or a checker failed

Example:
  echo 'pmpcfg_csr_write hart 0: write reg0, val: 0x18' | pmp import qemu stdin
  It answers pmp 3

docs/FORMATS.md describes all of it byte by byte, and has every refusal by its
number.";

pub const MORE_OF_PLAN: &str = "\
A number is 1 to 20 decimal digits, or `0x` and 1 to 16 hexadecimal digits,
below 2^64. Without `0x` it is decimal.

A plan says who may do what with which bytes. `pmp plan` writes the CSR writes
that make it so on a hart after reset: a script of version 3, or with `--c` a C
array to paste into firmware. Options give the hart, by default RV64 with 16
entries and Smepmp, and its MML, MMWP and RLB, by default 0. Before anything is
written, the writes are run, and the result is compared with the plan, byte by
byte. With `--from SCRIPT` the writes begin with the registers that a script
leaves, as a switch from one domain to another does, in an order in which none
of them opens a byte that is closed before and after. `pmp plan --of SCRIPT`
turns a script's final registers into a plan.
  first, last  the byte addresses of the first byte and of the last one, not
               below it; rows may come in any order
  m            the rights of M-mode, as r-x; bytes of no row have rwx, with
               --mml rw-, and with --mmwp none
  su           those of S-mode and U-mode; bytes of no row have none
  locked       yes if the bytes are to be locked until reset, otherwise no
  name         a name, in the form that --names takes

Exit status:
  0  the answer is written
  2  no answer: the words or an input are at fault
  3  no answer: memory, an input, the output or a checker failed

Example:
  printf 'first,last,m,su,locked,name\\n0x80000000,0x8001ffff,r-x,---,yes,firmware\\n' > boot.csv
  pmp plan boot.csv --mml --c
  It answers static const struct { unsigned csr; unsigned long long value; } pmp_writes[] = {

docs/FORMATS.md describes all of it byte by byte, and has every refusal by its
number.";
