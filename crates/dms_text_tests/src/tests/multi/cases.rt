//! A case a line: a text, what it is read as and the canonical text of its items, with a bar between them.
//! Written by tools/multi_cases.py.

pub(crate) static CASES: &str = "\
[tr1,1,5,5][fo1]z[jp]yz[fo1][pt255]|fault 3 at 0; |
z[jp3]A|0..1 Char(122); 1..6 JustPage(Some(3)); 6..7 Char(65); |z[jp3]A
[jl2]1]p|0..5 JustLine(Some(2)); 5..6 Char(49); fault 3 at 6; |[jl2]1
[jL4][jp3]B[[B[flo7][[[jp4]11|0..5 JustLine(Some(4)); 5..10 JustPage(Some(3)); 10..11 Char(66); 11..13 Char(91); 13..14 Char(66); 14..20 FlashOn { first: Dark, lit: None, dark: Some(7) }; 20..22 Char(91); 22..27 JustPage(Some(4)); 27..28 Char(49); 28..29 Char(49); |[jl4][jp3]B[[B[flo7][[[jp4]11
]][pto0000][]1[hc42][jl4][fo2]A|0..2 Char(93); 2..11 PageTime { lit: None, dark: Some(0) }; fault 3 at 11; |]][pto0]
A[jl4][Fo2]A[fl][np][flt1o]A[jp2]A|0..1 Char(65); 1..6 JustLine(Some(4)); 6..11 Font(Some((2, None))); 11..12 Char(65); 12..16 FlashOn { first: Lit, lit: None, dark: None }; 16..20 NewPage; 20..27 FlashOn { first: Lit, lit: Some(1), dark: None }; 27..28 Char(65); 28..33 JustPage(Some(2)); 33..34 Char(65); |A[jl4][fo2]A[fl][np][flt1]A[jp2]A
[[[fo][fo1,0001]|0..2 Char(91); 2..6 Font(None); 6..16 Font(Some((1, Some(1)))); |[[[fo][fo1,0001]
]][fo1]BA[jl2]A|0..2 Char(93); 2..7 Font(Some((1, None))); 7..8 Char(66); 8..9 Char(65); 9..14 JustLine(Some(2)); 14..15 Char(65); |]][fo1]BA[jl2]A
B[nl9][jp2][pt255o][jl][cf5][pb6][fo]|0..1 Char(66); 1..6 NewLine(Some(9)); 6..11 JustPage(Some(2)); 11..19 PageTime { lit: Some(255), dark: None }; 19..23 JustLine(None); 23..28 Foreground(Some(5)); 28..33 Background(Some(6)); 33..37 Font(None); |B[nl9][jp2][pt255][jl][cf5][pb6][fo]
[nl2][cf4]1B[jl3],np]|0..5 NewLine(Some(2)); 5..10 Foreground(Some(4)); 10..11 Char(49); 11..12 Char(66); 12..17 JustLine(Some(3)); 17..18 Char(44); 18..19 Char(110); 19..20 Char(112); fault 3 at 20; |[nl2][cf4]1B[jl3],np
[pto255]]]]][np]B[Nl][jp]|0..8 PageTime { lit: None, dark: Some(255) }; 8..10 Char(93); 10..12 Char(93); 12..16 NewPage; 16..17 Char(66); 17..21 NewLine(None); 21..25 JustPage(None); |[pto255]]]]][np]B[nl][jp]
[nl][fl][fo2,0002][fo002][nl][nl]A|0..4 NewLine(None); 4..8 FlashOn { first: Lit, lit: None, dark: None }; 8..18 Font(Some((2, Some(2)))); 18..25 Font(Some((2, None))); 25..29 NewLine(None); 29..33 NewLine(None); 33..34 Char(65); |[nl][fl][fo2,0002][fo2][nl][nl]A
B[Ol04][np]|0..1 Char(66); fault 3 at 1; |B
[hc5d]A[jp002]1[jl]B[hc05b][pto0]]]|0..6 Char(93); 6..7 Char(65); 7..14 JustPage(Some(2)); 14..15 Char(49); 15..19 JustLine(None); 19..20 Char(66); 20..27 Char(91); 27..33 PageTime { lit: None, dark: Some(0) }; 33..35 Char(93); |]]A[jp2]1[jl]B[[[pto0]]]
]][]1|0..2 Char(93); fault 3 at 2; |]]
[jp4]1[jl4][flo]1[nl]|0..5 JustPage(Some(4)); 5..6 Char(49); 6..11 JustLine(Some(4)); 11..16 FlashOn { first: Dark, lit: None, dark: None }; 16..17 Char(49); 17..21 NewLine(None); |[jp4]1[jl4][flo]1[nl]
[jL4]2]]|0..5 JustLine(Some(4)); 5..6 Char(50); 6..8 Char(93); |[jl4]2]]
[]p][nl][jp2]|fault 3 at 0; |
1[fo1]1|0..1 Char(49); 1..6 Font(Some((1, None))); 6..7 Char(49); |1[fo1]1
[[[np]1[nl1][jl2]|0..2 Char(91); 2..6 NewPage; 6..7 Char(49); 7..12 NewLine(Some(1)); 12..17 JustLine(Some(2)); |[[[np]1[nl1][jl2]
[foo][pp][NP][xnl]|fault 4 at 0; |
1[[[[[jp3][np]|0..1 Char(49); 1..3 Char(91); 3..5 Char(91); 5..10 JustPage(Some(3)); 10..14 NewPage; |1[[[[[jp3][np]
[np]1B[nl1][jp]|0..4 NewPage; 4..5 Char(49); 5..6 Char(66); 6..11 NewLine(Some(1)); 11..15 JustPage(None); |[np]1B[nl1][jp]
[hc005d]A[nl]AA|0..8 Char(93); 8..9 Char(65); 9..13 NewLine(None); 13..14 Char(65); 14..15 Char(65); |]]A[nl]AA
]nl2][f1]B|fault 3 at 0; |
[hc5d]B[nl][pt255][pt2|0..6 Char(93); 6..7 Char(66); 7..11 NewLine(None); 11..18 PageTime { lit: Some(255), dark: None }; fault 3 at 18; |]]B[nl][pt255]
[jp3]1[[[fo1,0001][0O00001]1[[|0..5 JustPage(Some(3)); 5..6 Char(49); 6..8 Char(91); 8..18 Font(Some((1, Some(1)))); fault 3 at 18; |[jp3]1[[[fo1,0001]
A[jp3][fo]|0..1 Char(65); 1..6 JustPage(Some(3)); 6..10 Font(None); |A[jp3][fo]
[[]][jp4][jp2]|0..2 Char(91); 2..4 Char(93); 4..9 JustPage(Some(4)); 9..14 JustPage(Some(2)); |[[]][jp4][jp2]
A]][hc41][[[pb04]]][flt0o0][jl]1|0..1 Char(65); 1..3 Char(93); 3..9 Char(65); 9..11 Char(91); 11..17 Background(Some(4)); 17..19 Char(93); 19..27 FlashOn { first: Lit, lit: Some(0), dark: Some(0) }; 27..31 JustLine(None); 31..32 Char(49); |A]]A[[[pb4]]][flt0o0][jl]1
1A[Nl]|0..1 Char(49); 1..2 Char(65); 2..6 NewLine(None); |1A[nl]
[cf8]A[jp03][fl]|0..5 Foreground(Some(8)); 5..6 Char(65); 6..12 JustPage(Some(3)); 12..16 FlashOn { first: Lit, lit: None, dark: None }; |[cf8]A[jp3][fl]
[pb00007][fo2][pt30][nl2]AA[pto0][jl3]|0..9 Background(Some(7)); 9..14 Font(Some((2, None))); 14..20 PageTime { lit: Some(30), dark: None }; 20..25 NewLine(Some(2)); 25..26 Char(65); 26..27 Char(65); 27..33 PageTime { lit: None, dark: Some(0) }; 33..38 JustLine(Some(3)); |[pb7][fo2][pt30][nl2]AA[pto0][jl3]
]]A[pb7][jp4][fo2][0o2][jL]A|0..2 Char(93); 2..3 Char(65); 3..8 Background(Some(7)); 8..13 JustPage(Some(4)); 13..18 Font(Some((2, None))); fault 3 at 18; |]]A[pb7][jp4][fo2]
B[nl0]B[jp3][nl9]|0..1 Char(66); 1..6 NewLine(Some(0)); 6..7 Char(66); 7..12 JustPage(Some(3)); 12..17 NewLine(Some(9)); |B[nl0]B[jp3][nl9]
1[fo][nl][jl3]|0..1 Char(49); 1..5 Font(None); 5..9 NewLine(None); 9..14 JustLine(Some(3)); |1[fo][nl][jl3]
B]][np][fo1][np][fo1][fo1][nl2][[|0..1 Char(66); 1..3 Char(93); 3..7 NewPage; 7..12 Font(Some((1, None))); 12..16 NewPage; 16..21 Font(Some((1, None))); 21..26 Font(Some((1, None))); 26..31 NewLine(Some(2)); 31..33 Char(91); |B]][np][fo1][np][fo1][fo1][nl2][[
]][fo2][nl9][jp3][jp]|0..2 Char(93); 2..7 Font(Some((2, None))); 7..12 NewLine(Some(9)); 12..17 JustPage(Some(3)); 17..21 JustPage(None); |]][fo2][nl9][jp3][jp]
[fl][fo2]AA[jp]AAAA[nl2][jp4][jp2]|0..4 FlashOn { first: Lit, lit: None, dark: None }; 4..9 Font(Some((2, None))); 9..10 Char(65); 10..11 Char(65); 11..15 JustPage(None); 15..16 Char(65); 16..17 Char(65); 17..18 Char(65); 18..19 Char(65); 19..24 NewLine(Some(2)); 24..29 JustPage(Some(4)); 29..34 JustPage(Some(2)); |[fl][fo2]AA[jp]AAAA[nl2][jp4][jp2]
pnl2][nl]|0..1 Char(112); 1..2 Char(110); 2..3 Char(108); 3..4 Char(50); fault 3 at 4; |pnl2
[np][jL4]]]]][[[hc41][[[jp]|0..4 NewPage; 4..9 JustLine(Some(4)); 9..11 Char(93); 11..13 Char(93); 13..15 Char(91); 15..21 Char(65); 21..23 Char(91); 23..27 JustPage(None); |[np][jl4]]]]][[A[[[jp]
[jp2]A[jp3][jl03][fo1]|0..5 JustPage(Some(2)); 5..6 Char(65); 6..11 JustPage(Some(3)); 11..17 JustLine(Some(3)); 17..22 Font(Some((1, None))); |[jp2]A[jp3][jl3][fo1]
[fo1][fo2,0002]A|0..5 Font(Some((1, None))); 5..15 Font(Some((2, Some(2)))); 15..16 Char(65); |[fo1][fo2,0002]A
[cb][hc41][cb7]A[fo2][pt]A|0..4 Background(None); 4..10 Char(65); 10..15 Background(Some(7)); 15..16 Char(65); 16..21 Font(Some((2, None))); 21..25 PageTime { lit: None, dark: None }; 25..26 Char(65); |[pb]A[pb7]A[fo2][pt]A
[hc]]]|fault 4 at 0; |
[jp4][[[pb2]BA[fo01]B[jl3][nl][[B|0..5 JustPage(Some(4)); 5..7 Char(91); 7..12 Background(Some(2)); 12..13 Char(66); 13..14 Char(65); 14..20 Font(Some((1, None))); 20..21 Char(66); 21..26 JustLine(Some(3)); 26..30 NewLine(None); 30..32 Char(91); 32..33 Char(66); |[jp4][[[pb2]BA[fo1]B[jl3][nl][[B
[np][nl2]|0..4 NewPage; 4..9 NewLine(Some(2)); |[np][nl2]
A[hC0041]|0..1 Char(65); 1..9 Char(65); |AA
[jp004][jl00002]11[[A[fo1]]]|0..7 JustPage(Some(4)); 7..16 JustLine(Some(2)); 16..17 Char(49); 17..18 Char(49); 18..20 Char(91); 20..21 Char(65); 21..26 Font(Some((1, None))); 26..28 Char(93); |[jp4][jl2]11[[A[fo1]]]
[Fo2,0002][jl][nl]A[flto007]A[cb004]A|0..10 Font(Some((2, Some(2)))); 10..14 JustLine(None); 14..18 NewLine(None); 18..19 Char(65); 19..28 FlashOn { first: Lit, lit: None, dark: Some(7) }; 28..29 Char(65); 29..36 Background(Some(4)); 36..37 Char(65); |[fo2,0002][jl][nl]A[flto7]A[pb4]A
A[pto0][hc5d]A[[]][jl]|0..1 Char(65); 1..7 PageTime { lit: None, dark: Some(0) }; 7..13 Char(93); 13..14 Char(65); 14..16 Char(91); 16..18 Char(93); 18..22 JustLine(None); |A[pto0]]]A[[]][jl]
[nL0000][[B]]B]][/fl][/fl][pt0][hc41]1|0..8 NewLine(Some(0)); 8..10 Char(91); 10..11 Char(66); 11..13 Char(93); 13..14 Char(66); 14..16 Char(93); 16..21 FlashEnd; 21..26 FlashEnd; 26..31 PageTime { lit: Some(0), dark: None }; 31..37 Char(65); 37..38 Char(49); |[nl0][[B]]B]][/fl][/fl][pt0]A1
]][jl4][np]]][nl][cf00006][pt30][nl]|0..2 Char(93); 2..7 JustLine(Some(4)); 7..11 NewPage; 11..13 Char(93); 13..17 NewLine(None); 17..26 Foreground(Some(6)); 26..32 PageTime { lit: Some(30), dark: None }; 32..36 NewLine(None); |]][jl4][np]]][nl][cf6][pt30][nl]
B[[B]][pb]1[Nl2][fo158]A|0..1 Char(66); 1..3 Char(91); 3..4 Char(66); 4..6 Char(93); 6..10 Background(None); 10..11 Char(49); 11..16 NewLine(Some(2)); 16..23 Font(Some((158, None))); 23..24 Char(65); |B[[B]][pb]1[nl2][fo158]A
]]0jl4]]][fo1,0011]|0..2 Char(93); 2..3 Char(48); 3..4 Char(106); 4..5 Char(108); 5..6 Char(52); 6..8 Char(93); fault 3 at 8; |]]0jl4]]
[cf4][hc005d][hc031]|0..5 Foreground(Some(4)); 5..13 Char(93); 13..20 Char(49); |[cf4]]]1
[pt00255o]]]]][pt30]11[fo]|0..10 PageTime { lit: Some(255), dark: None }; 10..12 Char(93); 12..14 Char(93); 14..20 PageTime { lit: Some(30), dark: None }; 20..21 Char(49); 21..22 Char(49); 22..26 Font(None); |[pt255]]]]][pt30]11[fo]
[pt][/fl]]]|0..4 PageTime { lit: None, dark: None }; 4..9 FlashEnd; 9..11 Char(93); |[pt][/fl]]]
[np][fl][FO]|0..4 NewPage; 4..8 FlashOn { first: Lit, lit: None, dark: None }; 8..12 Font(None); |[np][fl][fo]
1[pto5][jp]BB[pb4]1[jp2]]][nf]|0..1 Char(49); 1..7 PageTime { lit: None, dark: Some(5) }; 7..11 JustPage(None); 11..12 Char(66); 12..13 Char(66); 13..18 Background(Some(4)); 18..19 Char(49); 19..24 JustPage(Some(2)); 24..26 Char(93); fault 3 at 26; |1[pto5][jp]BB[pb4]1[jp2]]]
[nl2][nl][nl]|0..5 NewLine(Some(2)); 5..9 NewLine(None); 9..13 NewLine(None); |[nl2][nl][nl]
[pt0]A[jp2]1[jp][hcg]B|0..5 PageTime { lit: Some(0), dark: None }; 5..6 Char(65); 6..11 JustPage(Some(2)); 11..12 Char(49); 12..16 JustPage(None); fault 4 at 16; |[pt0]A[jp2]1[jp]
[C9][jl2]]]|fault 3 at 0; |
B[fo2]AAA[nl][hc0041][fl]A|0..1 Char(66); 1..6 Font(Some((2, None))); 6..7 Char(65); 7..8 Char(65); 8..9 Char(65); 9..13 NewLine(None); 13..21 Char(65); 21..25 FlashOn { first: Lit, lit: None, dark: None }; 25..26 Char(65); |B[fo2]AAA[nl]A[fl]A
[hc042][[]]|0..7 Char(66); 7..9 Char(91); 9..11 Char(93); |B[[]]
y[fo2][jp][nl][pto255]|0..1 Char(121); 1..6 Font(Some((2, None))); 6..10 JustPage(None); 10..14 NewLine(None); 14..22 PageTime { lit: None, dark: Some(255) }; |y[fo2][jp][nl][pto255]
[fo2]AAA[nl]A[Np]|0..5 Font(Some((2, None))); 5..6 Char(65); 6..7 Char(65); 7..8 Char(65); 8..12 NewLine(None); 12..13 Char(65); 13..17 NewPage; |[fo2]AAA[nl]A[np]
[jl2]B]][hc05b][nl9][Jl03]|0..5 JustLine(Some(2)); 5..6 Char(66); 6..8 Char(93); 8..15 Char(91); 15..20 NewLine(Some(9)); 20..26 JustLine(Some(3)); |[jl2]B]][[[nl9][jl3]
[[[fo2]A[nl1][jO4][pto0][cf]|0..2 Char(91); 2..7 Font(Some((2, None))); 7..8 Char(65); 8..13 NewLine(Some(1)); fault 3 at 13; |[[[fo2]A[nl1]
[nl9][fo2]|0..5 NewLine(Some(9)); 5..10 Font(Some((2, None))); |[nl9][fo2]
1[jp]1[jp3][fo][fo2,0002]|0..1 Char(49); 1..5 JustPage(None); 5..6 Char(49); 6..11 JustPage(Some(3)); 11..15 Font(None); 15..25 Font(Some((2, Some(2)))); |1[jp]1[jp3][fo][fo2,0002]
[np][cb2][jl4][nl02][fo][po1][cb0]|0..4 NewPage; 4..9 Background(Some(2)); 9..14 JustLine(Some(4)); 14..20 NewLine(Some(2)); 20..24 Font(None); fault 3 at 24; |[np][pb2][jl4][nl2][fo]
[np]B[jl003]|0..4 NewPage; 4..5 Char(66); 5..12 JustLine(Some(3)); |[np]B[jl3]
A1A|0..1 Char(65); 1..2 Char(49); 2..3 Char(65); |A1A
[pto255]]][jp4][[A[hc31][[]][fo0001][nl]|0..8 PageTime { lit: None, dark: Some(255) }; 8..10 Char(93); 10..15 JustPage(Some(4)); 15..17 Char(91); 17..18 Char(65); 18..24 Char(49); 24..26 Char(91); 26..28 Char(93); 28..36 Font(Some((1, None))); 36..40 NewLine(None); |[pto255]]][jp4][[A1[[]][fo1][nl]
1[np][fo2]|0..1 Char(49); 1..5 NewPage; 5..10 Font(Some((2, None))); |1[np][fo2]
1B[jl4][[]][nl9][jl3][jp]|0..1 Char(49); 1..2 Char(66); 2..7 JustLine(Some(4)); 7..9 Char(91); 9..11 Char(93); 11..16 NewLine(Some(9)); 16..21 JustLine(Some(3)); 21..25 JustPage(None); |1B[jl4][[]][nl9][jl3][jp]
[jl3]1[[1[jp04][[]][nl2][jp2]A|0..5 JustLine(Some(3)); 5..6 Char(49); 6..8 Char(91); 8..9 Char(49); 9..15 JustPage(Some(4)); 15..17 Char(91); 17..19 Char(93); 19..24 NewLine(Some(2)); 24..29 JustPage(Some(2)); 29..30 Char(65); |[jl3]1[[1[jp4][[]][nl2][jp2]A
AB[nl][fl][fo1][pb9][jl4][jp2]2[hc041]|0..1 Char(65); 1..2 Char(66); 2..6 NewLine(None); 6..10 FlashOn { first: Lit, lit: None, dark: None }; 10..15 Font(Some((1, None))); 15..20 Background(Some(9)); 20..25 JustLine(Some(4)); 25..30 JustPage(Some(2)); 30..31 Char(50); 31..38 Char(65); |AB[nl][fl][fo1][pb9][jl4][jp2]2A
[nl0][hc05d][nl0][pt0000][jo3][nl][np]|0..5 NewLine(Some(0)); 5..12 Char(93); 12..17 NewLine(Some(0)); 17..25 PageTime { lit: Some(0), dark: None }; fault 3 at 25; |[nl0]]][nl0][pt0]
A]]]][fo]B]][fo2,0002][np][pb7][fo2]|0..1 Char(65); 1..3 Char(93); 3..5 Char(93); 5..9 Font(None); 9..10 Char(66); 10..12 Char(93); 12..22 Font(Some((2, Some(2)))); 22..26 NewPage; 26..31 Background(Some(7)); 31..36 Font(Some((2, None))); |A]]]][fo]B]][fo2,0002][np][pb7][fo2]
[jl4][jl]|0..5 JustLine(Some(4)); 5..9 JustLine(None); |[jl4][jl]
[fo00002,0002][Hc041]|0..14 Font(Some((2, Some(2)))); 14..21 Char(65); |[fo2,0002]A
[jp][nl][pt][cf0][fo2][jp3]|0..4 JustPage(None); 4..8 NewLine(None); 8..12 PageTime { lit: None, dark: None }; 12..17 Foreground(Some(0)); 17..22 Font(Some((2, None))); 22..27 JustPage(Some(3)); |[jp][nl][pt][cf0][fo2][jp3]
[[[nl][pt][jl][fo2]A[pto0][flto0]|0..2 Char(91); 2..6 NewLine(None); 6..10 PageTime { lit: None, dark: None }; 10..14 JustLine(None); 14..19 Font(Some((2, None))); 19..20 Char(65); 20..26 PageTime { lit: None, dark: Some(0) }; 26..33 FlashOn { first: Lit, lit: None, dark: Some(0) }; |[[[nl][pt][jl][fo2]A[pto0][flto0]
[jp3][fl]x[nl][nl2][hc12345o[nl]|0..5 JustPage(Some(3)); 5..9 FlashOn { first: Lit, lit: None, dark: None }; 9..10 Char(120); 10..14 NewLine(None); 14..19 NewLine(Some(2)); fault 4 at 19; |[jp3][fl]x[nl][nl2]
[fl],|0..4 FlashOn { first: Lit, lit: None, dark: None }; 4..5 Char(44); |[fl],
B[jl3][fo]|0..1 Char(66); 1..6 JustLine(Some(3)); 6..10 Font(None); |B[jl3][fo]
AA[fo001][[1[nl][jl4]|0..1 Char(65); 1..2 Char(65); 2..9 Font(Some((1, None))); 9..11 Char(91); 11..12 Char(49); 12..16 NewLine(None); 16..21 JustLine(Some(4)); |AA[fo1][[1[nl][jl4]
]]]]1[jp3][jp]|0..2 Char(93); 2..4 Char(93); 4..5 Char(49); 5..10 JustPage(Some(3)); 10..14 JustPage(None); |]]]]1[jp3][jp]
]][2l]|0..2 Char(93); fault 3 at 2; |]]
A]][[|0..1 Char(65); 1..3 Char(93); 3..5 Char(91); |A]][[
[jl2]11ABA[jp4][jp2]O|0..5 JustLine(Some(2)); 5..6 Char(49); 6..7 Char(49); 7..8 Char(65); 8..9 Char(66); 9..10 Char(65); 10..15 JustPage(Some(4)); 15..20 JustPage(Some(2)); 20..21 Char(79); |[jl2]11ABA[jp4][jp2]O
]][nl][np][np][np][np][np]A[nl][np]|0..2 Char(93); 2..6 NewLine(None); 6..10 NewPage; 10..14 NewPage; 14..18 NewPage; 18..22 NewPage; 22..26 NewPage; 26..27 Char(65); 27..31 NewLine(None); 31..35 NewPage; |]][nl][np][np][np][np][np]A[nl][np]
[np]A]]A[pto255][pt0][pb8]]]|0..4 NewPage; 4..5 Char(65); 5..7 Char(93); 7..8 Char(65); 8..16 PageTime { lit: None, dark: Some(255) }; 16..21 PageTime { lit: Some(0), dark: None }; 21..26 Background(Some(8)); 26..28 Char(93); |[np]A]]A[pto255][pt0][pb8]]]
B1[pto][fo1,o011]A|0..1 Char(66); 1..2 Char(49); 2..7 PageTime { lit: None, dark: None }; fault 4 at 7; |B1[pt]
[[[cb][jp3][np][jl]B[hc005d]|0..2 Char(91); 2..6 Background(None); 6..11 JustPage(Some(3)); 11..15 NewPage; 15..19 JustLine(None); 19..20 Char(66); 20..28 Char(93); |[[[pb][jp3][np][jl]B]]
pA|0..1 Char(112); 1..2 Char(65); |pA
[jl2]x [jp][pb8]yx|0..5 JustLine(Some(2)); 5..6 Char(120); 6..7 Char(32); 7..11 JustPage(None); 11..16 Background(Some(8)); 16..17 Char(121); 17..18 Char(120); |[jl2]x [jp][pb8]yx
[[]]]][Jl][nl9]|0..2 Char(91); 2..4 Char(93); 4..6 Char(93); 6..10 JustLine(None); 10..15 NewLine(Some(9)); |[[]]]][jl][nl9]
[fl]|0..4 FlashOn { first: Lit, lit: None, dark: None }; |[fl]
[CB2][jl]|0..5 Background(Some(2)); 5..9 JustLine(None); |[pb2][jl]
[fc0042]B|fault 3 at 0; |
A[flt5o][jp]]][fo2,0002][np]|0..1 Char(65); 1..8 FlashOn { first: Lit, lit: Some(5), dark: None }; 8..12 JustPage(None); 12..14 Char(93); 14..24 Font(Some((2, Some(2)))); 24..28 NewPage; |A[flt5][jp]]][fo2,0002][np]
1A[j]2][np]|0..1 Char(49); 1..2 Char(65); fault 3 at 2; |1A
[flt5][o[nl1]A|0..6 FlashOn { first: Lit, lit: Some(5), dark: None }; fault 3 at 6; |[flt5]
[fo1][np][pb]oflo7t]A[pb0]]]|0..5 Font(Some((1, None))); 5..9 NewPage; 9..13 Background(None); 13..14 Char(111); 14..15 Char(102); 15..16 Char(108); 16..17 Char(111); 17..18 Char(55); 18..19 Char(116); fault 3 at 19; |[fo1][np][pb]oflo7t
B[nl9]|0..1 Char(66); 1..6 NewLine(Some(9)); |B[nl9]
A[/fl]]]A]1[nl][fo][fo0002][cb4][fo2]A|0..1 Char(65); 1..6 FlashEnd; 6..8 Char(93); 8..9 Char(65); fault 3 at 9; |A[/fl]]]A
[hc005b]1[pt0o5]|0..8 Char(91); 8..9 Char(49); 9..16 PageTime { lit: Some(0), dark: Some(5) }; |[[1[pt0o5]
A[no1]A[JL]]][Nl9]|0..1 Char(65); fault 3 at 1; |A
[fo2]A[jp4]A[pb][fl]AA[jl4]A[jl03]|0..5 Font(Some((2, None))); 5..6 Char(65); 6..11 JustPage(Some(4)); 11..12 Char(65); 12..16 Background(None); 16..20 FlashOn { first: Lit, lit: None, dark: None }; 20..21 Char(65); 21..22 Char(65); 22..27 JustLine(Some(4)); 27..28 Char(65); 28..34 JustLine(Some(3)); |[fo2]A[jp4]A[pb][fl]AA[jl4]A[jl3]
B[hc041]]]A[jl]|0..1 Char(66); 1..8 Char(65); 8..10 Char(93); 10..11 Char(65); 11..15 JustLine(None); |BA]]A[jl]
[/fl]A[nl][jp2][nl][[|0..5 FlashEnd; 5..6 Char(65); 6..10 NewLine(None); 10..15 JustPage(Some(2)); 15..19 NewLine(None); 19..21 Char(91); |[/fl]A[nl][jp2][nl][[
[nP]B1|0..4 NewPage; 4..5 Char(66); 5..6 Char(49); |[np]B1
9fo][jp4]]][fo1]]]1BA1|0..1 Char(57); 1..2 Char(102); 2..3 Char(111); fault 3 at 3; |9fo
[nl][nl1]|0..4 NewLine(None); 4..9 NewLine(Some(1)); |[nl][nl1]
[cb0][cb][/fl]]]1[jp2]]][cb]|0..5 Background(Some(0)); 5..9 Background(None); 9..14 FlashEnd; 14..16 Char(93); 16..17 Char(49); 17..22 JustPage(Some(2)); 22..24 Char(93); 24..28 Background(None); |[pb0][pb][/fl]]]1[jp2]]][pb]
[pt30o255][jp0003][jl2]A[jp4]|0..10 PageTime { lit: Some(30), dark: Some(255) }; 10..18 JustPage(Some(3)); 18..23 JustLine(Some(2)); 23..24 Char(65); 24..29 JustPage(Some(4)); |[pt30o255][jp3][jl2]A[jp4]
[[AA1]][hc005b][[|0..2 Char(91); 2..3 Char(65); 3..4 Char(65); 4..5 Char(49); 5..7 Char(93); 7..15 Char(91); 15..17 Char(91); |[[AA1]][[[[
[nl][[|0..4 NewLine(None); 4..6 Char(91); |[nl][[
[jl]]A|0..4 JustLine(None); fault 3 at 4; |[jl]
t][[AA[[A1|0..1 Char(116); fault 3 at 1; |t
[pto]|0..5 PageTime { lit: None, dark: None }; |[pt]
~.[jl3]|0..1 Char(126); 1..2 Char(46); 2..7 JustLine(Some(3)); |~.[jl3]
l|0..1 Char(108); |l
[pt0o0][hc0042]A[hc041]]][fo1]|0..7 PageTime { lit: Some(0), dark: Some(0) }; 7..15 Char(66); 15..16 Char(65); 16..23 Char(65); 23..25 Char(93); 25..30 Font(Some((1, None))); |[pt0o0]BAA]][fo1]
1]][np]1A[jl4]AA|0..1 Char(49); 1..3 Char(93); 3..7 NewPage; 7..8 Char(49); 8..9 Char(65); 9..14 JustLine(Some(4)); 14..15 Char(65); 15..16 Char(65); |1]][np]1A[jl4]AA
[[[nl][/fl][pb4][fo1][jl3][jl4]|0..2 Char(91); 2..6 NewLine(None); 6..11 FlashEnd; 11..16 Background(Some(4)); 16..21 Font(Some((1, None))); 21..26 JustLine(Some(3)); 26..31 JustLine(Some(4)); |[[[nl][/fl][pb4][fo1][jl3][jl4]
B[jl3]]]1[[]][np]|0..1 Char(66); 1..6 JustLine(Some(3)); 6..8 Char(93); 8..9 Char(49); 9..11 Char(91); 11..13 Char(93); 13..17 NewPage; |B[jl3]]]1[[]][np]
[nl01]|0..6 NewLine(Some(1)); |[nl1]
[nl][pb5][/fl][fo1,0001]|0..4 NewLine(None); 4..9 Background(Some(5)); 9..14 FlashEnd; 14..24 Font(Some((1, Some(1)))); |[nl][pb5][/fl][fo1,0001]
BA1[hc5d]]][nl9][flo0t99]|0..1 Char(66); 1..2 Char(65); 2..3 Char(49); 3..9 Char(93); 9..11 Char(93); 11..16 NewLine(Some(9)); 16..25 FlashOn { first: Dark, lit: Some(99), dark: Some(0) }; |BA1]]]][nl9][flo0t99]
[jp][fo1]]|0..4 JustPage(None); 4..9 Font(Some((1, None))); fault 3 at 9; |[jp][fo1]
A1[Nl][fo72]|0..1 Char(65); 1..2 Char(49); 2..6 NewLine(None); 6..12 Font(Some((72, None))); |A1[nl][fo72]
]]]][nl1]|0..2 Char(93); 2..4 Char(93); 4..9 NewLine(Some(1)); |]]]][nl1]
[jp4][np]Cy|0..5 JustPage(Some(4)); 5..9 NewPage; 9..10 Char(67); 10..11 Char(121); |[jp4][np]Cy
[jl][jl4][nl][jl2][jl3][[[jl2][|0..4 JustLine(None); 4..9 JustLine(Some(4)); 9..13 NewLine(None); 13..18 JustLine(Some(2)); 18..23 JustLine(Some(3)); 23..25 Char(91); 25..30 JustLine(Some(2)); fault 3 at 30; |[jl][jl4][nl][jl2][jl3][[[jl2]
[ll1][flo99]1[jl2][np]|fault 3 at 0; |
A]][fo001,0001][[A[nl9][jp][jl3]A[[|0..1 Char(65); 1..3 Char(93); 3..15 Font(Some((1, Some(1)))); 15..17 Char(91); 17..18 Char(65); 18..23 NewLine(Some(9)); 23..27 JustPage(None); 27..32 JustLine(Some(3)); 32..33 Char(65); 33..35 Char(91); |A]][fo1,0001][[A[nl9][jp][jl3]A[[
[nl][pb0004]|0..4 NewLine(None); 4..12 Background(Some(4)); |[nl][pb4]
[pt255]A1[flo99t1]O[nl][jl2]A|0..7 PageTime { lit: Some(255), dark: None }; 7..8 Char(65); 8..9 Char(49); 9..18 FlashOn { first: Dark, lit: Some(1), dark: Some(99) }; 18..19 Char(79); 19..23 NewLine(None); 23..28 JustLine(Some(2)); 28..29 Char(65); |[pt255]A1[flo99t1]O[nl][jl2]A
[hc2e]A|0..6 Char(46); 6..7 Char(65); |.A
[pt0][nl][cb9][fo01][JP][jl3]|0..5 PageTime { lit: Some(0), dark: None }; 5..9 NewLine(None); 9..14 Background(Some(9)); 14..20 Font(Some((1, None))); 20..24 JustPage(None); 24..29 JustLine(Some(3)); |[pt0][nl][pb9][fo1][jp][jl3]
[jl2]A[jp4]B[[[[[[[nl0]B|0..5 JustLine(Some(2)); 5..6 Char(65); 6..11 JustPage(Some(4)); 11..12 Char(66); 12..14 Char(91); 14..16 Char(91); 16..18 Char(91); 18..23 NewLine(Some(0)); 23..24 Char(66); |[jl2]A[jp4]B[[[[[[[nl0]B
1[hc5b]BA[hc5d][fo1][nl]|0..1 Char(49); 1..7 Char(91); 7..8 Char(66); 8..9 Char(65); 9..15 Char(93); 15..20 Font(Some((1, None))); 20..24 NewLine(None); |1[[BA]][fo1][nl]
[jp4][cf1]A[jl4]A1|0..5 JustPage(Some(4)); 5..10 Foreground(Some(1)); 10..11 Char(65); 11..16 JustLine(Some(4)); 16..17 Char(65); 17..18 Char(49); |[jp4][cf1]A[jl4]A1
[FLT1][pt0255o5]A[/B[pto0005][hc05b]1|0..6 FlashOn { first: Lit, lit: Some(1), dark: None }; 6..16 PageTime { lit: Some(255), dark: Some(5) }; 16..17 Char(65); fault 3 at 17; |[flt1][pt255o5]A
9nl9][cb1][fo1,0011]|0..1 Char(57); 1..2 Char(110); 2..3 Char(108); 3..4 Char(57); fault 3 at 4; |9nl9
A[[A[jp002][jl03]A[[|0..1 Char(65); 1..3 Char(91); 3..4 Char(65); 4..11 JustPage(Some(2)); 11..17 JustLine(Some(3)); 17..18 Char(65); 18..20 Char(91); |A[[A[jp2][jl3]A[[
 |0..1 Char(32); | 
[fo][[[[B[nl][/Fl][pt][fo1,0001][/fl]|0..4 Font(None); 4..6 Char(91); 6..8 Char(91); 8..9 Char(66); 9..13 NewLine(None); 13..18 FlashEnd; 18..22 PageTime { lit: None, dark: None }; 22..32 Font(Some((1, Some(1)))); 32..37 FlashEnd; |[fo][[[[B[nl][/fl][pt][fo1,0001][/fl]
A[[[jl]B1[Nl][jl3]]]1[jl3][np]|0..1 Char(65); 1..3 Char(91); 3..7 JustLine(None); 7..8 Char(66); 8..9 Char(49); 9..13 NewLine(None); 13..18 JustLine(Some(3)); 18..20 Char(93); 20..21 Char(49); 21..26 JustLine(Some(3)); 26..30 NewPage; |A[[[jl]B1[nl][jl3]]]1[jl3][np]
[[A[flo0]|0..2 Char(91); 2..3 Char(65); 3..9 FlashOn { first: Dark, lit: None, dark: Some(0) }; |[[A[flo0]
[jl4][jp2]]][jp2][/FL]]][/fl][fo2,0012]|0..5 JustLine(Some(4)); 5..10 JustPage(Some(2)); 10..12 Char(93); 12..17 JustPage(Some(2)); 17..22 FlashEnd; 22..24 Char(93); 24..29 FlashEnd; 29..39 Font(Some((2, Some(18)))); |[jl4][jp2]]][jp2][/fl]]][/fl][fo2,0012]
[nl9][jp4][cr2][nl]|0..5 NewLine(Some(9)); 5..10 JustPage(Some(4)); fault 3 at 10; |[nl9][jp4]
B[cb4][/flx]|0..1 Char(66); 1..6 Background(Some(4)); fault 4 at 6; |B[pb4]
[flo99t5]1[[[/fl][fl]1[[[Xo2]|0..9 FlashOn { first: Dark, lit: Some(5), dark: Some(99) }; 9..10 Char(49); 10..12 Char(91); 12..17 FlashEnd; 17..21 FlashOn { first: Lit, lit: None, dark: None }; 21..22 Char(49); 22..24 Char(91); fault 3 at 24; |[flo99t5]1[[[/fl][fl]1[[
[jp][cb05][fo1]|0..4 JustPage(None); 4..10 Background(Some(5)); 10..15 Font(Some((1, None))); |[jp][pb5][fo1]
2[cf8]1|0..1 Char(50); 1..6 Foreground(Some(8)); 6..7 Char(49); |2[cf8]1
";
