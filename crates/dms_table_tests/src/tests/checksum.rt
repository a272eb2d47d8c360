//! Checksums of messages.

use dms_codes::crc;
use std::test::Fail;

/// Checksums that another program computed, a message a line: its beacon, its pixel service, the checksum, and its text
/// between two bars.
const MESSAGES: &str = "\
0 0 0f47 ||
0 0 9a66 |A|
1 0 83be |A|
0 0 7502 |B|
56 57 906e |1234567|
0 1 1ece ||
1 0 169f ||
1 1 0716 ||
0 0 c5f7 | |
0 0 1abe |1|
1 1 12ef |1|
0 0 f5da |2|
1 0 6cda |B|
0 0 6c89 |[|
0 0 ba50 |]|
0 1 608a |é|
1 1 7952 |é|
1 0 55ad |€|
0 1 b98b | B2Bl|
0 0 046b |BAB21|
0 0 0269 |]p[ [|
0 0 0df8 |l2[[]|
0 1 c496 |n]pln|
0 1 4fd0 |plA[[|
0 1 d8f5 |2nB]é|
0 0 9e16 |éAplp|
1 1 cf39 |2€2n |
1 0 c00e |[BA[€|
0 1 b415 |pAB[€|
1 0 aa77 |1lBp]n[B1A[[p BB2[p€[n 2nA1A[2npnA2AnéA2|
1 1 8d48 |]2p[lA111]p]12é2B ll22npp1[2B]2B]é lBBBé|
0 1 79e6 | [B€2nn[l 21AnBn  é pn2][p12]p]n€]Aé22[[|
0 1 005a |2 léép lp]] 2n1A2[Bpp]1A l2é]p2lén[€ A[1|
1 0 bcac |A1éA[BBlé1BAn[nA[2pABB2€Bp BA[21€én  [1A|
0 0 746d |A€ppl2n1 pl  l12A[n[]€n[pA2l  néBB é l]é|
1 1 b15e |p ]1BnlBB[2n[[B1]l€BépBp ]1€n]€2]ABp[]1B|
0 1 1e4c |p1Ap[Apn1p]1é  1B B[péé[ [léB[plB€]] 2é |
1 0 b8b2 |11l€éA[éAp[Bn2l[21[A1l1[np2211]]€] nA2]€|
0 0 b2e0 |B1  p2A1]én péBn2 2 élA2lé[p]nA B€p €[lp|
1 0 8016 |B1[é1lnnAp[1 2pé€nB1éBAB2pné€llp22]nl21A|
1 0 ca7d |nB2éB€ n[€ lBlépAl] 2[1[l[1[p2ln[ ]épnné|
1 1 5cb3 | [€Alép[€p én1]ppn  2BBlél€l[All]p]pé2p1|
1 1 7a34 |]€]é2é2éBBn[éAp2[BpnpBpp2l1Ap21élép2p p€|
0 1 83d6 |élnl] é€€An]  ]]l[ BppB n1B1éél1p   €[np|
0 0 e73d |1[Bl[él l€é€  l 2pBé22l plAp[A]pn[B€B2]€|
";

/// The beacon, the pixel service, the checksum and the text of a line.
fn message_of(line: &str) -> Option<(u8, u8, u16, &str)> {
    let (beacon, rest) = line.split_once(' ')?;
    let (pixel, rest) = rest.split_once(' ')?;
    let (checksum, text) = rest.split_once(' ')?;
    let checksum = u16::from_str_radix(checksum, 16).ok()?;
    let text = text.strip_prefix('|')?.strip_suffix('|')?;
    Some((beacon.parse().ok()?, pixel.parse().ok()?, checksum, text))
}

#[test]
fn checksums_of_messages(rt: HostRuntime) -> Result<(), Fail> {
    for line in MESSAGES.lines() {
        let (beacon, pixel, want, text) = message_of(line).ok_or("no message")?;
        assert_eq!(rt; crc(text.as_bytes(), beacon, pixel), want, "of {line:?}");
    }
    assert_eq!(rt; MESSAGES.lines().count(), 45);
    Ok(())
}
