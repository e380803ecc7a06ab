//! Scripts of a few lines, with their statuses and their texts.

/// Scripts, with the statuses and the texts of their runs.
pub const RUNS: [(&str, u8, &str); 48] = [
    // Nobody has anything to do.
    ("gup 1\nframes 8 8 64\nprocess p\nthread t p\n", 0, ""),
    ("gup 1\nframes 8 8 64\n", 0, ""),
    (
        "gup 1\nframes 0 0 64\nchild c\nthread u c\ndevice d 8\nmover m\n",
        0,
        "",
    ),
    // Lines that say nothing.
    (
        "\n# one page\ngup 1\n\nframes 8 8 64\nseed 7\nprocess p\n# and one thread\nthread t p\non t load 5.0\n\n",
        0,
        "t 1 missing\n",
    ),
    // The last page and its last word.
    (
        "gup 1\nframes 8 8 64\nprocess p\nchild c\nthread t p\nthread v p\nthread u c\ndevice d 8\nmover m\non t map 34359738367 1 rw\non t store 34359738367.511 18446744073709551615\non t load 34359738367.511\n",
        0,
        "t 1 ok\nt 2 ok\nt 3 ok 18446744073709551615\n",
    ),
    // No old bytes come back.
    (
        "gup 1\nframes 1 0 64\nprocess p\nthread t p\non t map 5 1 rw\non t store 5.3 7\non t load 5.3\non t unmap 5 1\non t load 5.3\non t map 5 1 rw\non t load 5.3\non t map 5 1 rw\n",
        0,
        "t 1 ok\nt 2 ok\nt 3 ok 7\nt 4 ok\nt 5 missing\nt 6 ok\nt 7 ok 0\nt 8 overlap\n",
    ),
    (
        "gup 1\nframes 8 8 64\nprocess p\nthread t p\non t map 5 2 rw\non t store 5.0 7\non t store 6.0 8\non t discard 5 1\non t load 5.0\non t load 6.0\non t store 5.0 9\non t load 5.0\n",
        0,
        "t 1 ok\nt 2 ok\nt 3 ok\nt 4 ok\nt 5 ok 0\nt 6 ok 8\nt 7 ok\nt 8 ok 9\n",
    ),
    // Rights.
    (
        "gup 1\nframes 8 8 64\nprocess p\nthread t p\non t map 5 1 r\non t load 5.0\non t store 5.0 1\non t protect 5 1 rw\non t store 5.0 1\non t protect 5 1 r\non t store 5.0 2\non t load 5.0\non t protect 5 2 r\n",
        0,
        "t 1 ok\nt 2 ok 0\nt 3 forbidden\nt 4 ok\nt 5 ok\nt 6 ok\nt 7 forbidden\nt 8 ok 1\nt 9 missing\n",
    ),
    // An exit takes down all that is mapped, and the process goes on.
    (
        "gup 1\nframes 1 0 64\nprocess p\nthread t p\non t map 5 3 rw\non t store 6.0 4\non t exit\non t load 6.0\non t map 6 1 rw\non t load 6.0\n",
        0,
        "t 1 ok\nt 2 ok\nt 3 ok\nt 4 missing\nt 5 ok\nt 6 ok 0\n",
    ),
    // What denies a pin, and where it ends.
    (
        "gup 1\nframes 8 8 64\nprocess p\nthread t p\non t load 5.0\non t map 5 1 r\non t store 5.0 1\non t pin h 5 1 write\non t map 4 2 rw\non t pin k 5 2 read\non t unpin h\non t unpin k\non t unpin k\n",
        0,
        "t 1 missing\nt 2 ok\nt 3 forbidden\nt 4 forbidden\nt 5 overlap\nt 6 ok 1 of 2 missing\nt 7 notheld\nt 8 ok\nt 9 notheld\n",
    ),
    // A pin keeps its frame after its page, and gives it back.
    (
        "gup 1\nframes 1 0 64\nprocess p\nthread t p\non t map 5 2 rw\non t pin h 5 2 write\non t pin k 6 1 read\non t unpin k\non t unmap 5 2\non t map 6 1 rw\non t load 6.0\non t unpin h\non t load 6.0\non t unpin h\n",
        0,
        "t 1 ok\nt 2 ok 1 of 2 noframe\nt 3 noframe\nt 4 notheld\nt 5 ok\nt 6 ok\nt 7 noframe\nt 8 ok\nt 9 ok 0\nt 10 notheld\n",
    ),
    // A pin goes from hand to hand, and a device moves words of it.
    (
        "gup 1\nframes 8 8 64\nprocess p\nthread t p\ndevice d 2\non t map 5 2 rw\non t store 6.511 9\non t pin h 5 2 write\non t give h d\non t give h d\non t unpin h\non t take h\non t load 5.511\non t load 6.0\non t unpin h\non d take h\non d out h 1023 1 1\non d out h 1023 0 2\non d in h 0 1 2\non d in h 511 0 2\non d give h d\non d out h 0 0 1\non d take h\non d give h t\n",
        0,
        "t 1 ok\nt 2 ok\nt 3 ok 2\nt 4 ok\nd 1 ok\nt 5 notheld\nd 2 ok 9\nt 6 notheld\nd 3 range\nd 4 range\nd 5 ok 0 9\nd 6 ok\nd 7 notheld\nd 8 ok\nd 9 ok\nt 7 ok\nt 8 ok 0\nt 9 ok 9\nt 10 ok\n",
    ),
    // A reference is of its page's frame as a load finds it, keeps it over an unmap, and is put back by its own actor, once.
    (
        "gup 1\nframes 1 0 64\nprocess p\nthread t p\nthread v p\non t get g 5\non t map 5 2 rw\non t get h 5\non t get k 6\non t unmap 5 1\non t load 6.0\non v put h\non v put g\non t put h\non t put h\non t put k\non t load 6.0\nturns t*6 v*2\n",
        0,
        "t 1 missing\nt 2 ok\nt 3 ok\nt 4 noframe\nt 5 ok\nt 6 noframe\nv 1 notheld\nv 2 notheld\nt 7 ok\nt 8 notheld\nt 9 notheld\nt 10 ok 0\n",
    ),
    // It may be got of a page that may not be written, makes no fork copy the page, and is one of the frame that is shared.
    (
        "gup 1\nframes 1 0 64\nprocess p\nchild c\nthread t p\nthread u c\non t map 5 1 r\non t get g 5\non t get h 5\non t fork c\non t put g\non u get k 5\non u unmap 5 1\non t unmap 5 1\non t map 6 1 r\non t load 6.0\non u put k\non t load 6.0\non t put h\non t load 6.0\nturns t*9 u*2 t*2 u t*3\n",
        0,
        "t 1 ok\nt 2 ok\nt 3 ok\nt 4 ok\nt 5 ok\nt 6 ok\nu 1 ok\nu 2 ok\nt 7 ok\nt 8 noframe\nu 3 ok\nt 9 noframe\nt 10 ok\nt 11 ok 0\n",
    ),
    // A process that failed has no references.
    (
        "gup 1\nframes 1 0 64\nprocess p\nchild c\nthread t p\nthread u c\non t map 5 1 rw\non t pin h 5 1 write\non t fork c\non u get g 5\non u put g\n",
        0,
        "t 1 ok\nt 2 ok 1\nt 3 noframe\nu 1 unborn\nu 2 unborn\n",
    ),
    // A fork, an unmap, a discard and an exit wait for a move that has cleared a page, and then find it moved.
    (
        "gup 1\nframes 8 8 64\nprocess p\nchild c\nthread t p\nthread u c\nmover m\non t map 5 1 rw\non t store 5.0 7\non t fork c\non t store 5.0 8\non u load 5.0\non m move p 5 normal\nturns t*2 m t*4 m*2 t*4\n",
        0,
        "t 1 ok\nt 2 ok\nm 1 ok\nt 3 ok\nt 4 ok\nu 1 ok 7\n",
    ),
    (
        "gup 1\nframes 1 1 64\nprocess p\nthread t p\nthread v p\nmover m\non t map 5 2 rw\non t store 5.0 7\non t load 5.0\non t map 5 2 rw\non t store 5.0 8\non t store 6.0 9\non v unmap 5 2\non m move p 5 normal\nturns t*2 m v*3 m*2 v*2\n",
        0,
        "t 1 ok\nt 2 ok\nm 1 ok\nv 1 ok\nt 3 missing\nt 4 ok\nt 5 ok\nt 6 ok\n",
    ),
    (
        "gup 1\nframes 1 1 64\nprocess p\nthread t p\nthread v p\nmover m\non t map 5 1 rw\non t store 5.0 7\non t load 5.0\non t map 6 1 rw\non t store 6.0 9\non v discard 5 1\non m move p 5 normal\nturns t*2 m v*3 m*2 v\n",
        0,
        "t 1 ok\nt 2 ok\nm 1 ok\nv 1 ok\nt 3 ok 0\nt 4 ok\nt 5 ok\n",
    ),
    (
        "gup 1\nframes 1 1 64\nprocess p\nthread t p\nthread v p\nmover m\non t map 5 1 rw\non t store 5.0 7\non t load 5.0\non t map 5 2 rw\non t store 5.0 8\non t store 6.0 9\non v exit\non m move p 5 normal\nturns t*2 m v*3 m*2 v*2\n",
        0,
        "t 1 ok\nt 2 ok\nm 1 ok\nv 1 ok\nt 3 missing\nt 4 ok\nt 5 ok\nt 6 ok\n",
    ),
    // So do a fork and an unmap for a page of a long pin: the fork copies what is pinned then, and the pin keeps what is
    // unmapped.
    (
        "gup 1\nframes 8 8 64\nprocess p\nchild c\nthread t p\nthread v p\nthread u c\ndevice d 8\non t map 5 1 rw\non t store 5.0 7\non t pin h 5 1 write long\non t store 5.0 8\non t give h d\non v fork c\non u load 5.0\non d take h\non d out h 0 0 1\nturns t*3 v*3 t*2 v*517\n",
        0,
        "t 1 ok\nt 2 ok\nt 3 ok 1\nv 1 ok\nt 4 ok\nu 1 ok 7\nt 5 ok\nd 1 ok\nd 2 ok 8\n",
    ),
    (
        "gup 1\nframes 8 8 64\nprocess p\nthread t p\nthread v p\ndevice d 8\non t map 5 1 rw\non t store 5.0 7\non t pin h 5 1 write long\non t give h d\non v unmap 5 1\non d take h\non d out h 0 0 1\nturns t*3 v*3 t*2 v\n",
        0,
        "t 1 ok\nt 2 ok\nt 3 ok 1\nv 1 ok\nt 4 ok\nd 1 ok\nd 2 ok 7\n",
    ),
    // A device goes on with its page while a move looks at it. The move answers the count that it read, though the pin is
    // gone since.
    (
        "gup 1\nframes 8 8 64\nprocess p\nthread t p\ndevice d 8\nmover m\non t map 5 1 rw\non t store 5.0 7\non t pin h 5 1 write\non t give h d\non t load 5.1\non d take h\non d out h 0 0 1\non d in h 1 0 1\non d unpin h\non m move p 5 normal\non m move p 5 normal\nturns t*4 d m d m d*2 m\n",
        0,
        "t 1 ok\nt 2 ok\nt 3 ok 1\nt 4 ok\nd 1 ok\nd 2 ok 7\nd 3 ok 7\nd 4 ok\nm 1 busy 1025\nt 5 ok 7\nm 2 ok\n",
    ),
    // Of two processes that share a page, one gives it up before the move counts, or after it.
    (
        "gup 1\nframes 8 8 64\nprocess p\nchild c\nthread t p\nthread u c\nmover m\non t map 5 1 rw\non t store 5.0 7\non t fork c\non t load 5.0\non t store 5.0 8\non t load 5.0\non u load 5.0\non u unmap 5 1\non m move p 5 normal\nturns t*6 u m u m*2 t\n",
        0,
        "t 1 ok\nt 2 ok\nt 3 ok\nu 1 ok 7\nu 2 ok\nm 1 ok\nt 4 ok 7\nt 5 ok\nt 6 ok 8\n",
    ),
    (
        "gup 1\nframes 8 8 64\nprocess p\nchild c\nthread t p\nthread u c\nmover m\non t map 5 1 rw\non t store 5.0 7\non t fork c\non t load 5.0\non u store 5.0 9\non u load 5.0\non m move p 5 normal\non m move p 5 normal\non m move c 5 normal\nturns t*6 m*2 u m\n",
        0,
        "t 1 ok\nt 2 ok\nt 3 ok\nu 1 ok\nm 1 busy 2\nt 4 ok 7\nu 2 ok 9\nm 2 ok\nm 3 ok\n",
    ),
    // A long pin takes normal frames alone, for the copy of a shared page, for a fault and to move to; and has the pages
    // before one that can't be moved.
    (
        "gup 1\nframes 1 1 64\nprocess p\nchild c\nthread t p\nthread u c\nmover m\non t map 5 1 rw\non t store 5.0 7\non t fork c\non t pin h 5 1 read long\non u load 5.0\non m move c 5 movable\non m move c 5 normal\nturns t*7\n",
        0,
        "t 1 ok\nt 2 ok\nt 3 ok\nt 4 ok 1\nu 1 ok 7\nm 1 noframe\nm 2 noframe\n",
    ),
    (
        "gup 1\nframes 2 0 64\nprocess p\nthread t p\non t map 5 1 rw\non t pin h 5 1 write long\non t load 5.0\non t pin k 5 1 write long\non t store 5.0 3\non t load 5.0\n",
        0,
        "t 1 ok\nt 2 noframe\nt 3 ok 0\nt 4 noframe\nt 5 ok\nt 6 ok 3\n",
    ),
    (
        "gup 1\nframes 8 8 64\nprocess p\nthread t p\nmover m\non t map 5 3 rw\non t store 5.0 1\non t store 6.0 2\non t store 7.0 3\non t pin k 6 1 read\non t pin h 5 3 write long\non t unpin h\non t load 6.0\non m move p 6 normal\non m move p 5 movable\nturns t*13\n",
        0,
        "t 1 ok\nt 2 ok\nt 3 ok\nt 4 ok\nt 5 ok 1\nt 6 ok 1 of 3 unmovable 1025\nt 7 ok\nt 8 ok 2\nm 1 busy 1025\nm 2 ok\n",
    ),
    // A mirror slot has its page over loads, pins and stores that only upgrade; a protect also to `rw`, a discard and an unmap empty
    // it. A mirror that is refused fills nothing.
    (
        "gup 1\nframes 8 8 64\nprocess p\nthread t p\ndevice d 8\non d mirror a p 5\non d look a 0\non t map 5 1 rw\non d mirror a p 5\non d look a 0\non t store 5.0 7\non t load 5.0\non t pin h 5 1 write\non d look a 0\non t protect 5 1 r\non d look a 0\non d mirror a p 5\non d look a 0\non t protect 5 1 rw\non d look a 0\non d mirror a p 5\non d look a 0\non t discard 5 1\non d look a 0\non d mirror a p 5\non d look a 0\non t unmap 5 1\non d look a 0\non d mirror a p 5\non d look a 0\nturns d*2 t d*2 t*3 d t d*3 t d*3 t d*3 t d*3\n",
        0,
        "d 1 missing\nd 2 stale\nt 1 ok\nd 3 ok\nd 4 ok 0\nt 2 ok\nt 3 ok 7\nt 4 ok 1\nd 5 ok 7\nt 5 ok\nd 6 stale\nd 7 ok\nd 8 ok 7\nt 6 ok\nd 9 stale\nd 10 ok\nd 11 ok 7\nt 7 ok\nd 12 stale\nd 13 ok\nd 14 ok 0\nt 8 ok\nd 15 stale\nd 16 missing\nd 17 stale\n",
    ),
    // A share empties the parent's slot, a store that breaks and an exit the child's alone, a move its page's alone.
    (
        "gup 1\nframes 8 8 64\nprocess p\nchild c\nthread t p\nthread u c\ndevice d 8\nmover m\non t map 5 1 rw\non t store 5.0 7\non d mirror a p 5\non t fork c\non d look a 0\non d mirror a p 5\non d mirror b c 5\non u store 5.0 9\non d look b 0\non d look a 0\non d mirror b c 5\non t store 5.0 8\non m move p 5 normal\non d look a 0\non d look b 0\non u exit\non d look b 0\non d mirror b c 5\nturns t*2 d t*4 d*3 u d*3 t m*3 d*2 u*2 d*2\n",
        0,
        "t 1 ok\nt 2 ok\nd 1 ok\nt 3 ok\nd 2 stale\nd 3 ok\nd 4 ok\nu 1 ok\nd 5 stale\nd 6 ok 7\nd 7 ok\nt 4 ok\nm 1 ok\nd 8 stale\nd 9 ok 9\nu 2 ok\nd 10 stale\nd 11 missing\n",
    ),
    // Of no frame, and of a child whose fork failed.
    (
        "gup 1\nframes 1 0 64\nprocess p\nchild c\nthread t p\ndevice d 8\non t map 5 2 rw\non t store 5.0 7\non t pin h 5 1 read\non d mirror a p 6\non d look a 0\non d mirror b c 5\non t fork c\nturns t*3 d*3\n",
        0,
        "t 1 ok\nt 2 ok\nt 3 ok 1\nd 1 noframe\nd 2 stale\nt 4 noframe\nd 3 unborn\n",
    ),
    // At most 1,024 pages.
    (
        "gup 1\nframes 8 8 64\nprocess p\nthread t p\non t map 0 1024 rw\non t map 2000 1 rw\non t unmap 1023 1\non t map 2000 1 rw\n",
        0,
        "t 1 ok\nt 2 full\nt 3 ok\nt 4 ok\n",
    ),
    // Want of frames, and of them alone.
    (
        "gup 1\nframes 0 0 64\nprocess p\nthread t p\non t map 5 1 rw\non t store 5.0 7\n",
        0,
        "t 1 ok\nt 2 noframe\n",
    ),
    (
        "gup 1\nframes 1 1 64\nprocess p\nprocess q\nthread t p\nthread v q\non t map 5 2 rw\non t load 5.0\non t store 6.0 3\non v map 5 1 rw\non v load 5.0\non v load 6.0\n",
        0,
        "t 1 ok\nv 1 ok\nt 2 ok 0\nv 2 ok 0\nt 3 noframe\nv 3 missing\n",
    ),
    (
        "gup 1\nframes 8 8 4\nprocess p\nthread t p\non t map 5 1 rw\non t load 5.0\n",
        0,
        "t 1 ok\nt 2 ok 0\n",
    ),
    // Two processes have memory of their own, two threads of one share theirs. The pointer goes round.
    (
        "gup 1\nframes 8 8 64\nprocess p\nprocess q\nthread t p\nthread v q\non t map 5 1 rw\non t store 5.0 7\non t load 5.0\non v map 5 1 rw\non v load 5.0\non v store 5.0 8\n",
        0,
        "t 1 ok\nv 1 ok\nt 2 ok\nv 2 ok 0\nt 3 ok 7\nv 3 ok\n",
    ),
    (
        "gup 1\nframes 8 8 64\nprocess p\nthread t p\nthread v p\non t map 5 1 rw\non t store 5.0 7\non v map 5 1 rw\non v load 5.0\n",
        0,
        "t 1 ok\nv 1 overlap\nt 2 ok\nv 2 ok 7\n",
    ),
    // One page a turn: another thread comes between.
    (
        "gup 1\nframes 8 8 64\nprocess p\nthread t p\nthread v p\non t map 5 2 rw\non t unmap 5 2\non v load 6.0\non v load 5.0\non v load 6.0\n",
        0,
        "t 1 ok\nv 1 ok 0\nv 2 missing\nt 2 ok\nv 3 missing\n",
    ),
    // Written turns come first, and those of an actor that has finished are spent.
    (
        "gup 1\nframes 8 8 64\nprocess p\nthread t p\nthread v p\non t map 5 1 rw\non t store 5.0 7\non v load 5.0\nturns v t v t\n",
        0,
        "v 1 missing\nt 1 ok\nt 2 ok\n",
    ),
    (
        "gup 1\nframes 8 8 64\nprocess p\nthread t p\nthread v p\non t map 5 1 rw\non t store 5.0 7\non v load 5.0\nturns t*2 v\n",
        0,
        "t 1 ok\nt 2 ok\nv 1 ok 7\n",
    ),
    // Nobody brings the child.
    (
        "gup 1\nframes 8 8 64\nprocess p\nchild c\nthread u c\non u load 5.0\n",
        4,
        "stuck u process c\n",
    ),
    (
        "gup 1\nframes 8 8 64\nprocess p\nchild c\nchild d\nthread w d\nthread t p\nthread u c\nthread v c\non u load 5.0\non t load 5.0\non w exit\non t load 5.0\n",
        4,
        "t 1 missing\nt 2 missing\nstuck w process d\nstuck u process c\n",
    ),
    // A written turn of an actor that waits is spent.
    (
        "gup 1\nframes 8 8 64\nprocess p\nchild c\nthread u c\nthread t p\non u load 5.0\non t load 5.0\nturns u*3\n",
        4,
        "t 1 missing\nstuck u process c\n",
    ),
    (
        "gup 1\nframes 8 8 64\nchild c\nthread u c\non u exit\n",
        4,
        "stuck u process c\n",
    ),
    // A fork isolates: each sees what it wrote itself, or what was there at the fork. Its child may fork too.
    (
        "gup 1\nframes 8 8 64\nprocess p\nchild c\nchild e\nthread t p\nthread u c\nthread w e\non t map 5 2 rw\non t store 5.0 7\non t fork c\non t store 5.0 8\non t load 5.0\non u load 6.0\non u fork e\non u store 5.0 9\non w load 5.0\non w store 6.511 1\non w load 6.511\non t load 6.511\nturns t*9 u*7\n",
        0,
        "t 1 ok\nt 2 ok\nt 3 ok\nt 4 ok\nt 5 ok 8\nu 1 ok 0\nu 2 ok\nt 6 ok 0\nu 3 ok\nw 1 ok 7\nw 2 ok\nw 3 ok 1\n",
    ),
    // Sixteen processes share one frame, and none is left for the last one's write.
    (
        "gup 1\nframes 1 0 64\nprocess p\nchild c1\nchild c2\nchild c3\nchild c4\nchild c5\nchild c6\nchild c7\nchild c8\nchild c9\nchild c10\nchild c11\nchild c12\nchild c13\nchild c14\nchild c15\nthread t0 p\nthread t1 c1\nthread t2 c2\nthread t3 c3\nthread t4 c4\nthread t5 c5\nthread t6 c6\nthread t7 c7\nthread t8 c8\nthread t9 c9\nthread t10 c10\nthread t11 c11\nthread t12 c12\nthread t13 c13\nthread t14 c14\nthread t15 c15\non t0 map 5 1 rw\non t0 store 5.0 7\non t0 fork c1\non t1 fork c2\non t2 fork c3\non t3 fork c4\non t4 fork c5\non t5 fork c6\non t6 fork c7\non t7 fork c8\non t8 fork c9\non t9 fork c10\non t10 fork c11\non t11 fork c12\non t12 fork c13\non t13 fork c14\non t14 fork c15\non t15 load 5.0\non t15 store 5.0 8\n",
        0,
        "t0 1 ok\nt0 2 ok\nt0 3 ok\nt1 1 ok\nt2 1 ok\nt3 1 ok\nt4 1 ok\nt5 1 ok\nt6 1 ok\nt7 1 ok\nt8 1 ok\nt9 1 ok\nt10 1 ok\nt11 1 ok\nt12 1 ok\nt13 1 ok\nt14 1 ok\nt15 1 ok 7\nt15 2 noframe\n",
    ),
    // A fork waits for nothing but the locks of its own process: two threads fork one after another.
    (
        "gup 1\nframes 8 8 64\nprocess p\nchild c\nchild e\nthread t p\nthread v p\nthread u c\nthread w e\non t map 5 1 rw\non t store 5.0 7\non t fork c\non v fork e\non u load 5.0\non w load 5.0\nturns t*4 v*3\n",
        0,
        "t 1 ok\nt 2 ok\nt 3 ok\nu 1 ok 7\nv 1 ok\nw 1 ok 7\n",
    ),
    // While it forks, a thread may write where its entry allows it, and waits where not.
    (
        "gup 1\nframes 8 8 64\nprocess p\nchild c\nthread t p\nthread v p\non t map 5 1 rw\non t store 5.0 7\non t fork c\non v store 5.0 8\non v map 6 1 r\non v load 5.0\nturns t*3 v*3 t v*2 t\n",
        0,
        "t 1 ok\nt 2 ok\nv 1 ok\nt 3 ok\nv 2 ok\nv 3 ok 8\n",
    ),
    // A process that was brought by a fork takes down its own pages alone.
    (
        "gup 1\nframes 2 0 64\nprocess p\nchild c\nthread t p\nthread u c\non t map 5 2 rw\non t store 5.0 7\non t store 6.0 8\non t fork c\non u exit\non u load 5.0\non t load 5.0\non t store 6.0 9\non t load 6.0\nturns t*9 u*4\n",
        0,
        "t 1 ok\nt 2 ok\nt 3 ok\nt 4 ok\nu 1 ok\nu 2 missing\nt 5 ok 7\nt 6 ok\nt 7 ok 9\n",
    ),
];
