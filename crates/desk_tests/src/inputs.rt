//! Whole inputs of the desk: two journals and a certificate each.

/// An input by the lines of each side, with the number of its close line, and by what is claimed of the first client.
macro_rules! input {
    (opened $at:literal, closed $end:literal, A $a:literal $last_a:literal, B $b:literal $last_b:literal,
     claimed $from:literal $to:literal, $claims:literal) => {
        concat!(
            "pd-journal 1 A\n1 ", $at, " open 2000 3600 3600\n2 ", $at,
            " pool 2001:0db8:0000:0000:0000:0000:0000:0000/48 56\n",
            $a, $last_a, " ", $end, " close\nend ", $last_a,
            "\npd-journal 1 B\n1 ", $at, " open 2000 3600 3600\n2 ", $at,
            " pool 2001:0db8:0000:0000:0000:0000:0000:0000/48 56\n",
            $b, $last_b, " ", $end, " close\nend ", $last_b,
            "\npd-certificate 1\nholder 00030001020000000001\nprefix 2001:0db8:0000:0000:0000:0000:0000:0000/56\n",
            "interval ", $from, " ", $to, "\n", $claims, "end\n"
        )
    };
}

/// One lease of an hour.
pub const WHOLE_HOUR: &str = input!(opened 500, closed 3700000, A
"3 10000 grant 00030001020000000001 00000001 2001:0db8:0000:0000:0000:0000:0000:0000/56 3600
" 4, B "" 3, claimed 12000 3608000,
"piece A3 12000 3608000 latest A3 earliest A3
");

/// Another client's lease that ended before the interval.
pub const ENDED_EARLY: &str = input!(opened 500, closed 3700000, A
"3 10000 grant 00030001020000000002 00000001 2001:0db8:0000:0000:0000:0000:0000:0000/56 100
4 100000 grant 00030001020000000001 00000001 2001:0db8:0000:0000:0000:0000:0000:0000/56 3600
" 5, B "" 3, claimed 112000 200000,
"piece A4 112000 200000 latest A4 earliest A4
foreign A3 early A3
");

/// Another client's lease, for ever, that began after the interval.
pub const BEGAN_LATE: &str = input!(opened 500, closed 3700000, A
"3 1000 grant 00030001020000000001 00000001 2001:0db8:0000:0000:0000:0000:0000:0000/56 3600
4 10000 grant 00030001020000000002 00000001 2001:0db8:0000:0000:0000:0000:0000:0000/56 4294967295
" 5, B "" 3, claimed 3000 8000,
"piece A3 3000 8000 latest A3 earliest A3
foreign A4 late A4
");

/// One lease, given back, with every bound at its limit.
pub const GIVEN_BACK: &str = input!(opened 500, closed 20000, A
"3 10000 grant 00030001020000000001 00000001 2001:0db8:0000:0000:0000:0000:0000:0000/56 10
4 20000 release 00030001020000000001 00000001 2001:0db8:0000:0000:0000:0000:0000:0000/56
" 5, B "" 3, claimed 12000 18000,
"piece A3 12000 18000 latest A3 earliest A3
clear A4 after A4
");

/// Two leases end to end behind one that was given back, with releases behind them.
pub const END_TO_END: &str = input!(opened 500, closed 26000, A
"3 6000 grant 00030001020000000001 00000001 2001:0db8:0000:0000:0000:0000:0000:0000/56 3600
4 9000 release 00030001020000000001 00000001 2001:0db8:0000:0000:0000:0000:0000:0000/56
5 10000 grant 00030001020000000001 00000001 2001:0db8:0000:0000:0000:0000:0000:0000/56 10
6 15000 grant 00030001020000000001 00000001 2001:0db8:0000:0000:0000:0000:0000:0000/56 10
7 25000 release 00030001020000000001 00000001 2001:0db8:0000:0000:0000:0000:0000:0000/56
" 8, B
"3 5000 release 00030001020000000001 00000001 2001:0db8:0000:0000:0000:0000:0000:0000/56
" 4, claimed 12000 23000,
"piece A5 12000 18000 latest A5 earliest A5
clear A4 before chain A4>A5
clear A7 after A7
clear B3 before clock B3 A5
piece A6 18000 23000 latest A6 earliest A6
clear B3 before clock B3 A6
clear A7 after A7
clear A4 before chain A4>A6
");

/// Another client's lease on the primary, given back on the secondary.
pub const AT_THE_PARTNER: &str = input!(opened 9000, closed 3700000, A
"3 10000 grant 00030001020000000002 00000001 2001:0db8:0000:0000:0000:0000:0000:0000/56 3600
4 10000 send 0 1 update active 2001:0db8:0000:0000:0000:0000:0000:0000/56 1 0 7210000 00000001 00030001020000000002
5 10100 take 0 1 update released 2001:0db8:0000:0000:0000:0000:0000:0000/56 2 1 0 00000001 00030001020000000002
6 10200 grant 00030001020000000001 00000001 2001:0db8:0000:0000:0000:0000:0000:0000/56 3600
" 7, B
"3 9500 take 0 1 update active 2001:0db8:0000:0000:0000:0000:0000:0000/56 1 0 7210000 00000001 00030001020000000002
4 9600 release 00030001020000000002 00000001 2001:0db8:0000:0000:0000:0000:0000:0000/56
5 9600 send 0 1 update released 2001:0db8:0000:0000:0000:0000:0000:0000/56 2 1 0 00000001 00030001020000000002
" 6, claimed 12200 3608200,
"piece A6 12200 3608200 latest A6 earliest A6
foreign A3 released B4 chain A3>A4>B3>B4 latest B4
");

/// Another client's lease, given back on the same side, and one of the partner behind it.
pub const GIVEN_BACK_BY_ANOTHER: &str = input!(opened 9000, closed 3700000, A
"3 10000 grant 00030001020000000002 00000001 2001:0db8:0000:0000:0000:0000:0000:0000/56 3600
4 20000 release 00030001020000000002 00000001 2001:0db8:0000:0000:0000:0000:0000:0000/56
" 5, B
"3 12000 grant 00030001020000000001 00000001 2001:0db8:0000:0000:0000:0000:0000:0000/56 3600
" 4, claimed 22000 40000,
"piece B3 22000 40000 latest B3 earliest B3
foreign A3 released A4 chain A3>A4 latest A4
");

/// The primary takes what the secondary sent otherwise.
pub const TAKEN_OTHERWISE: &str = input!(opened 9000, closed 3700000, A
"3 9000 take 0 1 contact 0 1
" 4, B
"3 9000 send 0 1 contact 0 0
" 4, claimed 12000 3608000,
"piece A3 12000 3608000 latest A3 earliest A3
");

/// Leases of five other clients that ended before the interval, on both sides.
pub const FIVE_OTHERS: &str = input!(opened 500, closed 3700000, A
"3 10000 grant 00030001020000000002 00000001 2001:0db8:0000:0000:0000:0000:0000:0000/56 90
4 10000 grant 00030001020000000003 00000001 2001:0db8:0000:0000:0000:0000:0000:0000/56 90
5 10000 grant 00030001020000000004 00000001 2001:0db8:0000:0000:0000:0000:0000:0000/56 90
6 100000 grant 00030001020000000001 00000001 2001:0db8:0000:0000:0000:0000:0000:0000/56 3600
" 7, B
"3 10000 grant 00030001020000000005 00000001 2001:0db8:0000:0000:0000:0000:0000:0000/56 90
4 10000 grant 00030001020000000006 00000001 2001:0db8:0000:0000:0000:0000:0000:0000/56 90
" 5, claimed 112000 200000,
"piece A6 112000 200000 latest A6 earliest A6
foreign A3 early A3
foreign A4 early A4
foreign A5 early A5
foreign B3 early B3
foreign B4 early B4
");

/// One event of each kind on either side, and each kind of evidence.
pub const EACH_KIND: &str = "pd-journal 1 A
1 0 open 562949953421312 4294967295 4294967295
2 0 pool 2001:0db8:0000:0000:0000:0000:0000:0000/48 56
3 1 expire 2001:0db8:0000:0000:0000:0000:0000:0000/56
4 2 backup 2001:0db8:0000:ff00:0000:0000:0000:0000/56
5 3 reclaim 2001:0db8:0000:ff00:0000:0000:0000:0000/56
6 4 send 0 1 update expired 2001:0db8:0000:0000:0000:0000:0000:0000/56 1 0 0 ffffffff 000300
7 5 send 4294967295 562949953421312 update backup 2001:0db8:0000:ff00:0000:0000:0000:0000/56 562949953421312 \
562949953421312 0 00000000 -
8 6 state normal
9 7 state interrupted
10 8 state down
11 9 restart 562949953421312
12 281474976710656 close
end 12
pd-journal 1 B
1 0 open 0 0 0
2 0 take 0 1 update active 2001:0db8:0000:0000:0000:0000:0000:0000/56 0 0 562949953421312 00000000 000300
3 0 take 0 2 update free 2001:0db8:0000:ff00:0000:0000:0000:0000/56 0 0 0 00000000 -
4 0 send 0 3 reply accept 2001:0db8:0000:0000:0000:0000:0000:0000/56 1 2 3
5 0 take 0 4 reply reject ffff:ffff:ffff:ffff:ffff:ffff:ffff:ffff/128 0 0 0
6 0 take 0 5 contact 562949953421312 0
7 0 close
end 7
pd-certificate 1
holder 000300
prefix 0000:0000:0000:0000:0000:0000:0000:0000/0
interval 0 281474976710656
piece A1048576 0 1 latest A1>B2 earliest B2>A1
clear A4 before clock A3 B4
clear A4 before chain A3>A4
clear B4 after A4>B4
piece B1 1 0 latest B1 earliest B1
foreign A3 early A3
foreign A4 late A3>A4
foreign B3 released B4 chain B3>B4 latest B4
foreign B3 released B4 clock B3 B4 latest B4>B5
end
";
