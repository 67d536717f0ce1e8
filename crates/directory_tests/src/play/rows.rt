//! Five worked scripts with all that they print, for the tests in which memory is refused or a script is cut. The others are data of
//! `stored_scripts`.

// A script, what it prints, and its status.
#[derive(Clone, Copy)]
pub(crate) struct Row {
    pub(crate) script: &'static str,
    pub(crate) out: &'static str,
    pub(crate) status: u8,
}

pub(crate) const ONE_SILO: Row = Row {
    script: "join 10.0.0.1:1000@1 0
see 10.0.0.1:1000@1 1
settle
wake 10.0.0.1:1000@1 user/ann#7
settle
find 10.0.0.1:1000@1 user/ann#7
settle
show
",
    out: "view 1 joined 10.0.0.1:1000@1
10.0.0.1:1000@1 sees 1 next sent 1..1
delivered 1 query report sent 2..2
delivered 2 report complete
started 10.0.0.1:1000@1!1 user/ann#7 sent 3..3
delivered 3 register registered sent 4..4
delivered 4 registered firm
finding user/ann#7 sent 5..5
delivered 5 find found sent 6..6
delivered 6 found learnt
version 1
silo 10.0.0.1:1000@1 active seen 1 held 1
held 10.0.0.1:1000@1!1 user/ann#7 firm
range 0+4294967296 10.0.0.1:1000@1 settled entries 1
",
    status: 0,
};

pub(crate) const LOST_LETTER: Row = Row {
    script: "join 10.0.0.1:1000@1 0
see 10.0.0.1:1000@1 1
settle
join 10.0.0.2:1000@1 2147483648
see 10.0.0.1:1000@1 2
see 10.0.0.2:1000@1 2
settle
wake 10.0.0.1:1000@1 user/n#3000000000
lose 6
mail
nudge 10.0.0.1:1000@1
settle
deliver 6
",
    out: "view 1 joined 10.0.0.1:1000@1
10.0.0.1:1000@1 sees 1 next sent 1..1
delivered 1 query report sent 2..2
delivered 2 report complete
view 2 joined 10.0.0.2:1000@1
10.0.0.1:1000@1 sees 2 next
10.0.0.2:1000@1 sees 2 next sent 3..3
delivered 3 ask page sent 4..4
delivered 4 page installed sent 5..5
delivered 5 done deleted
started 10.0.0.1:1000@1!1 user/n#3000000000 sent 6..6
lost 6
1 query 10.0.0.1:1000@1 10.0.0.1:1000@1 1
2 report 10.0.0.1:1000@1 10.0.0.1:1000@1 1
3 ask 10.0.0.2:1000@1 10.0.0.1:1000@1 2
4 page 10.0.0.1:1000@1 10.0.0.2:1000@1 2
5 done 10.0.0.2:1000@1 10.0.0.1:1000@1 2
nudged 10.0.0.1:1000@1 sent 7..7
delivered 7 register registered sent 8..8
delivered 8 registered firm
refused 905
",
    status: 0,
};

pub(crate) const CACHE_AND_FORGET: Row = Row {
    script: "join 10.0.0.1:1000@1 0
see 10.0.0.1:1000@1 1
settle
join 10.0.0.2:1000@1 2147483648
see 10.0.0.1:1000@1 2
see 10.0.0.2:1000@1 2
settle
wake 10.0.0.2:1000@1 user/r#1
settle
find 10.0.0.1:1000@1 user/r#1
settle
place 10.0.0.1:1000@1 least_held user/r#1
close 10.0.0.2:1000@1 user/r#1
settle
find 10.0.0.1:1000@1 user/r#1
forget 10.0.0.1:1000@1 user/r#1
forget 10.0.0.1:1000@1 user/r#1
find 10.0.0.1:1000@1 user/r#1
settle
",
    out: "view 1 joined 10.0.0.1:1000@1
10.0.0.1:1000@1 sees 1 next sent 1..1
delivered 1 query report sent 2..2
delivered 2 report complete
view 2 joined 10.0.0.2:1000@1
10.0.0.1:1000@1 sees 2 next
10.0.0.2:1000@1 sees 2 next sent 3..3
delivered 3 ask page sent 4..4
delivered 4 page installed sent 5..5
delivered 5 done deleted
started 10.0.0.2:1000@1!1 user/r#1 sent 6..6
delivered 6 register registered sent 7..7
delivered 7 registered firm
finding user/r#1 sent 8..8
delivered 8 find found sent 9..9
delivered 9 found learnt
place user/r#1 10.0.0.1:1000@1
closing 10.0.0.2:1000@1!1 user/r#1 sent 10..10
delivered 10 deregister removed sent 11..11
delivered 11 removed ended
cached 10.0.0.2:1000@1!1 user/r#1
forgot user/r#1
nothing cached user/r#1
finding user/r#1 sent 12..12
delivered 12 find nothing sent 13..13
delivered 13 nothing noted
",
    status: 0,
};

pub(crate) const RECOVERY: Row = Row {
    script: "join 10.0.0.1:1000@1 0
see 10.0.0.1:1000@1 1
settle
join 10.0.0.2:1000@1 2147483648
see 10.0.0.1:1000@1 2
see 10.0.0.2:1000@1 2
settle
join 10.0.0.3:1000@1 3221225472
sync
settle
wake 10.0.0.1:1000@1 user/f#2200000000
wake 10.0.0.1:1000@1 user/g#2200000001
wake 10.0.0.1:1000@1 user/h#2200000002
settle
kill 10.0.0.2:1000@1
see 10.0.0.1:1000@1 4
see 10.0.0.3:1000@1 4
deliver 15
deliver 17
show
settle
show
",
    out: "view 1 joined 10.0.0.1:1000@1
10.0.0.1:1000@1 sees 1 next sent 1..1
delivered 1 query report sent 2..2
delivered 2 report complete
view 2 joined 10.0.0.2:1000@1
10.0.0.1:1000@1 sees 2 next
10.0.0.2:1000@1 sees 2 next sent 3..3
delivered 3 ask page sent 4..4
delivered 4 page installed sent 5..5
delivered 5 done deleted
view 3 joined 10.0.0.3:1000@1
10.0.0.1:1000@1 sees 3 next
10.0.0.2:1000@1 sees 3 next
10.0.0.3:1000@1 sees 3 next sent 6..6
delivered 6 ask page sent 7..7
delivered 7 page installed sent 8..8
delivered 8 done deleted
started 10.0.0.1:1000@1!1 user/f#2200000000 sent 9..9
started 10.0.0.1:1000@1!2 user/g#2200000001 sent 10..10
started 10.0.0.1:1000@1!3 user/h#2200000002 sent 11..11
delivered 9 register registered sent 12..12
delivered 10 register registered sent 13..13
delivered 11 register registered sent 14..14
delivered 12 registered firm
delivered 13 registered firm
delivered 14 registered firm
view 4 dead 10.0.0.2:1000@1
10.0.0.1:1000@1 sees 4 next sent 15..16
10.0.0.3:1000@1 sees 4 next
delivered 15 query report sent 17..17
delivered 17 report more
version 4
silo 10.0.0.1:1000@1 active seen 4 held 3
held 10.0.0.1:1000@1!1 user/f#2200000000 firm
held 10.0.0.1:1000@1!2 user/g#2200000001 firm
held 10.0.0.1:1000@1!3 user/h#2200000002 firm
silo 10.0.0.2:1000@1 dead
silo 10.0.0.3:1000@1 active seen 4 held 0
range 0+3221225472 10.0.0.1:1000@1 unsettled
range 3221225472+1073741824 10.0.0.3:1000@1 settled entries 0
delivered 16 query report sent 18..18
delivered 18 report complete
version 4
silo 10.0.0.1:1000@1 active seen 4 held 3
held 10.0.0.1:1000@1!1 user/f#2200000000 firm
held 10.0.0.1:1000@1!2 user/g#2200000001 firm
held 10.0.0.1:1000@1!3 user/h#2200000002 firm
silo 10.0.0.2:1000@1 dead
silo 10.0.0.3:1000@1 active seen 4 held 0
range 0+3221225472 10.0.0.1:1000@1 settled entries 3
range 3221225472+1073741824 10.0.0.3:1000@1 settled entries 0
",
    status: 0,
};

pub(crate) const OFFER_TO_A_LAGGING_SILO: Row = Row {
    script: "join 10.0.0.1:1000@1 2147483648
see 10.0.0.1:1000@1 1
settle
join 10.0.0.2:1000@1 0
join 10.0.0.3:1000@1 536870912
join 10.0.0.4:1000@1 1073741824
sync
settle
join 10.0.0.5:1000@1 100
see 10.0.0.1:1000@1 5
see 10.0.0.2:1000@1 5
see 10.0.0.3:1000@1 5
see 10.0.0.5:1000@1 5
settle
wake 10.0.0.2:1000@1 user/x#3000000000
settle
leave 10.0.0.1:1000@1
see 10.0.0.2:1000@1 6
see 10.0.0.4:1000@1 6
deliver 45
deliver 49
offer 10.0.0.2:1000@1 user/x#3000000000 10.0.0.3:1000@1
deliver 50
see 10.0.0.1:1000@1 6
see 10.0.0.3:1000@1 6
see 10.0.0.5:1000@1 6
settle
show
check
",
    out: "view 1 joined 10.0.0.1:1000@1
10.0.0.1:1000@1 sees 1 next sent 1..1
delivered 1 query report sent 2..2
delivered 2 report complete
view 2 joined 10.0.0.2:1000@1
view 3 joined 10.0.0.3:1000@1
view 4 joined 10.0.0.4:1000@1
10.0.0.1:1000@1 sees 2 next
10.0.0.1:1000@1 sees 3 next
10.0.0.1:1000@1 sees 4 next
10.0.0.2:1000@1 sees 2 next sent 3..3
10.0.0.2:1000@1 sees 3 next sent 4..6
10.0.0.2:1000@1 sees 4 next sent 7..10
10.0.0.3:1000@1 sees 3 next sent 11..11
10.0.0.3:1000@1 sees 4 next sent 12..15
10.0.0.4:1000@1 sees 4 next sent 16..16
delivered 3 ask page sent 17..17
delivered 4 query ahead sent 18..18
delivered 5 query ahead sent 19..19
delivered 6 query ahead sent 20..20
delivered 7 query report sent 21..21
delivered 8 query report sent 22..22
delivered 9 query report sent 23..23
delivered 10 query report sent 24..24
delivered 11 ask missing sent 25..25
delivered 12 query report sent 26..26
delivered 13 query report sent 27..27
delivered 14 query report sent 28..28
delivered 15 query report sent 29..29
delivered 16 ask missing sent 30..30
delivered 17 page ignored
delivered 18 ahead noted
delivered 19 ahead noted
delivered 20 ahead noted
delivered 21 report more
delivered 22 report more
delivered 23 report more
delivered 24 report complete
delivered 25 missing ignored
delivered 26 report more
delivered 27 report more
delivered 28 report more
delivered 29 report complete
delivered 30 missing recovering sent 31..34
delivered 31 query report sent 35..35
delivered 32 query report sent 36..36
delivered 33 query report sent 37..37
delivered 34 query report sent 38..38
delivered 35 report more
delivered 36 report more
delivered 37 report more
delivered 38 report complete
view 5 joined 10.0.0.5:1000@1
10.0.0.1:1000@1 sees 5 next
10.0.0.2:1000@1 sees 5 next
10.0.0.3:1000@1 sees 5 next
10.0.0.5:1000@1 sees 5 next sent 39..39
delivered 39 ask page sent 40..40
delivered 40 page installed sent 41..41
delivered 41 done deleted
started 10.0.0.2:1000@1!1 user/x#3000000000 sent 42..42
delivered 42 register registered sent 43..43
delivered 43 registered firm
view 6 leaving 10.0.0.1:1000@1
10.0.0.2:1000@1 sees 6 next
10.0.0.4:1000@1 sees 6 skip sent 44..48
delivered 45 query report sent 49..49
delivered 49 report more
offered 10.0.0.2:1000@1!1 user/x#3000000000 to 10.0.0.3:1000@1 sent 50..50
delivered 50 offer ignored
10.0.0.1:1000@1 sees 6 next
10.0.0.3:1000@1 sees 6 next
10.0.0.5:1000@1 sees 6 next
delivered 44 query report sent 51..51
delivered 46 query report sent 52..52
delivered 47 query report sent 53..53
delivered 48 query report sent 54..54
delivered 51 report more
delivered 52 report more
delivered 53 report more
delivered 54 report complete
version 6
silo 10.0.0.1:1000@1 leaving seen 6 held 0
silo 10.0.0.2:1000@1 active seen 6 held 1
held 10.0.0.2:1000@1!1 user/x#3000000000 closing
silo 10.0.0.3:1000@1 active seen 6 held 0
silo 10.0.0.4:1000@1 active seen 6 held 0
silo 10.0.0.5:1000@1 active seen 6 held 0
range 0+100 10.0.0.2:1000@1 settled entries 0
range 100+536870812 10.0.0.5:1000@1 settled entries 0
range 536870912+536870912 10.0.0.3:1000@1 settled entries 0
range 1073741824+3221225472 10.0.0.4:1000@1 settled entries 1
check ok
",
    status: 0,
};
