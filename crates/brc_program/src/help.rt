//! What help says: of the program, of traces, of scripts, and of pictures. Each line fits 80 columns.

/// Of the program.
pub(crate) const ABOUT: &str = "\
An object heap for threads that share objects without a global lock: biased
reference counting (PEP 703; Choi, Shull and Torrellas, PACT 2018). Scripts run
on it, each section on a thread of its own; traces say, step by atomic step,
what its counts come to.";

/// What the whole program has in common.
pub(crate) const MORE: &str = "\
brc run --help teaches the language of scripts, brc replay --help that of
traces; brc graph --help says what a picture shows. All read standard input, at
most 16777216 bytes.

Statuses: 0 no object is live at the end, 1 some are, 2 bad command line, 3 bad
trace or script, or a text that is no report or world, 4 no memory or a section
that a fault ended, 5 input or output. Of several the highest counts.
";

/// Of traces.
pub(crate) const OF_REPLAY: &str = "\
Each line of a trace is one atomic step of one thread. If each is an event that
is enabled where it stands, the world that they lead to is written.

The first line is `heap CELLS LIMIT`: 512 to 65536 cells, of which those below
266 are immortal, and the most that an owner counts up, 1 to 4294967294. Each
further line is an event, of the root (0) or of a thread T:

    0 register T           thread T is there: 1 for the first, then 2, to 64
    0 gather T             the root sees that T has left and holds nothing
    T claim C              a free cell, for an object to be made in
    T local C              its local count is 1
    T shared C             its shared count is 0, default
    T born C KIND K        an object is there, held by place K of T's frame
    T up S K               T counts up on its own object; place K has it
    T down D               T counts down on its own object
    T see C                T looks whether no count of others is left
    T free C               a dead block is given back
    T untie C              the owner word is nobody's from now on
    T zero C               the object is merged at local count 0
    T shup S K             T counts up on the shared word; place K has it
    T shdown D             T counts down on the shared word
    T ask D                T asks for a merge: its reference is in its hand
    T last D               the shared word counts one down, once asked or merged
    T enq C                the hand's reference goes into the merge queue
    T drain W              T takes the bits of word W of its merge queue
    T add C                the local count is added to the shared word: merged
    T close W              T, on its way out, closes word W of its merge queue
    T nudge U W            T tells U to drain word W
    T wake                 T takes what it was told
    T lock K               T locks the object in place K
    T unlock keep          and unlocks it; or, in place of keep, one of
             put K         the cell of place K is now the last entry
             take I K      entry I is now in place K
             swap I K      entry I and the cell of place K change places

    C is a cell, K a place of T's frame, U a thread; KIND is int, text, list,
    dict or mailbox. S is f<place>, e<entry of the locked object> or
    i<immortal>. D is f<place> or w<cell on T's worklist>; for last also
    q<popped cell> or h, the hand.

Format 2 is of threads that hand their objects over before they leave, so that
the root can give their numbers again. It has the line `trace 2` above the head,
and two events more:

    T offer C              T's own object: T will merge it for whoever asks next
    T open W               T, which is there again, opens word W of its queue

There untie and add follow an offer too, and are an active thread's alone; T may
close its words once each of its objects is merged or dead; and 0 register T is
of the least number that is gathered, or else of the next, 65536 times at most.

A line is words with one space between them, ended by a line feed. Blank lines,
comments, carriage returns and leading zeros are not in the grammar. Bad is the
first line that isn't one of these; line 0 says that the input has more than
16777216 bytes.

A whole life of one object, made and given up by thread 1:

    heap 512 4294967294    512 cells, and the largest local count
    0 register 1           the root registers thread 1
    1 claim 266            a free cell becomes the thread's,
    1 local 266            its local count is set to 1,
    1 shared 266           its shared word to 0, default,
    1 born 266 list 0      and a list is there, held by place 0 of the frame
    1 down f0              the reference is given up: the local count is 0
    1 see 266              no count of others is left: the object is dead
    1 free 266             its block is given back

(without the words on the right). It leads to this world:

    world 512 4294967294
    thread 1 active
    ledger 1 1 0           one birth, one free, none live

A world of format 2 has the line `edition 2` above these.

Where a trace stops, as with `brc: line 7: not enabled`, the lines before show
the world that line 7 met:

    head -n 6 TRACE | brc replay

With --explain a second line says why, `brc: why: ..`: what is wrong with a bad
line, or which condition its event fails first and what stands there.

Statuses: 0 no mortal object is live at the end, 1 some are, 2 bad command line,
3 bad trace, 4 no memory, 5 input or output.
";

/// Of scripts.
pub(crate) const OF_RUN: &str = "\
A script is 1 to 63 sections, and all run at the same time, each on a thread of
its own. `section NAME` begins one; NAME is 1 to 32 of a to z and 0 to 9. Empty
lines, and lines that begin with #, do nothing. A line is words with one space
between them. A section has registers r0 to r15, which are empty at the start
and hold an object each; an instruction names none of them twice.

    int R N            R holds a new integer, of 64 bits
    text R BYTES       a new text: all behind the space, 0 to 4096 bytes, ASCII
    list R             a new list; `dict R` and `mailbox R` likewise
    copy R S           R holds what S holds
    drop S             S is empty; an object that nobody holds any more dies
    add R A B          a new integer, the sum of two
    print S            a line: the integer, the text, or `list N`, `dict N` or
                       `mailbox N` for N entries

    push L V           V goes behind the last entry of list L
    pop R L            the last entry comes out
    get R L I          R holds entry I too, counted from 0
    set L I V          V becomes entry I, and is then the old entry
    put M KEY V        V goes into dict M; V is then what was there, or empty
    find R M KEY       R holds what is under the key too
    del R M KEY        it comes out
    len R C            a new integer, the number of entries

    share NAME V       V goes into the globals, which all sections see
    fetch R NAME       R holds what is under the name; waits if nothing is
    unshare R NAME     it comes out; doesn't wait
    send B V           V goes behind the last of mailbox B
    recv R B           the first comes out; waits if there is none

    repeat N           the lines from here to `end` N times, 0 to 1000000; no
    end                repeat stands in another

    KEY is an integer, or ' and 1 to 64 bytes without a space; NAME is such
    bytes. R is given what comes of an instruction, and what it held before is
    released. push, put, share and send take V away: it is empty then, unless
    something came back for it.

Two sections that share a list:

    section baker
    list r0
    int r1 1000
    push r0 r1
    share shelf r0
    section buyer
    fetch r0 shelf
    pop r1 r0
    print r1

print this, whatever the threads do:

    buyer: 1000
    ledger 2 2 0

Nothing is shown until all sections have ended. Then come the lines of each, in
the script's order, `NAME: fault N Name line L` if a fault ended it, and the
report of the heap once its globals are cleared:

    ledger MADE FREED LEFT     of all threads
    remain CELL KIND HELDBY    an object that is left, and what holds it: one of
                               these too, or 265, the globals
    cycle CELL CELL ..         objects that hold each other in a ring, each held
                               by the next: counting alone never frees these

A fault ends its section, whose registers are released; the others go on.

    1 OutOfMemory    the machine gave no memory
    2 HeapFull       each cell has an object: see --cells
    3 FrameFull      the thread holds 65536 references
    5 WrongKind      the object isn't of the kind that the instruction needs
    6 NoSuchPlace    a register is empty, a list has no such entry or none at
                     all, or a mailbox has none and nobody can send any more
    7 NoSuchKey      nothing is under the key, or under the name and nobody can
                     share any more
    8 Full           a container has 1048576 entries
    16 Overflow      a sum needs more than 64 bits
    17 LedgerFull    the thread has made 2^47 objects

With --explain standard error says why, in lines `brc: why: ..`: what is wrong
with a bad line; which register, key or name a fault met, and in which turn of a
repeat; and which line made each object that is left.

A `fetch` or `recv` that finds nothing waits until another section has changed
something, and looks again. Once each section that hasn't ended waits so, none
can serve another, and all of these end, with fault 6 or 7.

Statuses: 0 no object is left, 1 some are, 2 bad command line, 3 bad script, 4 a
fault ended a section, or no memory, 5 input or output. Of several the highest
counts.
";

/// Of pictures.
pub(crate) const OF_GRAPH: &str = "\
The input is the report with which the output of brc run ends, that whole
output, or the world that brc replay writes. The output is a graph in DOT, the
language of graphviz:

    brc run < SCRIPT | brc graph | dot -Tsvg > PICTURE.svg

A node is an object, with its cell and kind; 265 are the globals. Each further
cell that something holds is an immortal.

Of a report a link goes to each object that is left from the cell that holds it,
the lowest one, and a box is drawn round the cells of each cycle:

    ledger 2 0 2           digraph brc {
    remain 266 list 267      265 [label=\"265 globals\"]
    remain 267 list 266      266 [label=\"266 list\"]
    cycle 266 267            267 -> 266
                             267 [label=\"267 list\"]
                             266 -> 267
                             subgraph cluster_266 {
                               label=\"cycle\"
                               266 267
                             }
                           }

Of a world each thread T is a box tT. Links go from it to what the places of its
frame hold, its merge queue, its popped bits, and its hand if that is asked,
shut, taking or held; and from each container to each entry, with the index. A
box is drawn round each cycle along the lowest container that holds each object.

What sections printed, `NAME: ..`, is passed over above a report. Bad is the
first line that can't stand where it is: `brc: line 7: not a report or world
line`. If the text ends too early that is the line behind its last one; line 0
says that the input has more than 16777216 bytes.

Statuses: 0 the picture is written, 2 bad command line, 3 bad report or world, 4
no memory, 5 input or output.
";
