//! The first seven lines of a description.

ghost use Rattle.std.specs.Prelude.{◌≡◌, ◌<◌, ◌+◌, ◌∷◌, ◌++◌, [], List, Some, None, IfOk, IfErr};
ghost use Rattle.dms_text.specs.Lines.{lines_left, number_after};
ghost use Rattle.dms_text.specs.Views.{numbered_line};
ghost use Rattle.dms_text.specs.Words.{words_of};
ghost use Rattle.dms_sign_text.specs.RefusedLine.{first_four_forms, first_forms};
ghost use Rattle.dms_text_forms.specs.Form.{word_fault, fault_from};
ghost use Rattle.dms_text_forms.specs.LineReading.{Takes, Lacks};
ghost use Rattle.dms_text_forms.specs.declared.vocabulary.Keyword.TheVariants as keywords;
ghost use Rattle.dms_text_forms.specs.declared.wanted.Wanted.{Wanted};
ghost use Rattle.dms_text_forms.specs.declared.wanted.Wanted.TheVariants as wants;
ghost use Rattle.dms_sign_text_causes.specs.Forms.{size_words, communities_words, rows_words, order_words, has_words};
ghost use Rattle.dms_sign_text_causes.specs.Forms.{defaults_words, four_octets, five_octets, first_words};
ghost use Rattle.dms_sign_text_causes.specs.declared.cause.LineCause.TheVariants as causes;
ghost use Rattle.dms_sign_text.specs.Causes.{first_four_words, head_words};
ghost use Rattle.dms_sign_text.specs.Setups.{octets_left};
ghost use Rattle.dms_sign_text.specs.Views.{communities_seen, beginning_seen, head_seen};
ghost use Rattle.dms_sign_text.specs.Views.{HaveForms, IsMisfit, FindsLine, FindsNoLine};
ghost use Rattle.dms_sign_text.specs.DescriptionReading.{size_of, communities_of, row_counts_of, order_at};
ghost use Rattle.dms_sign_text.specs.DescriptionReading.{order_of, services_of, colours_and_flash_at, defaults_with};
ghost use Rattle.dms_sign_text.specs.DescriptionReading.{defaults_of, first_of, beginning_at, head_at};

use crate::line_fault::LineFault;
use dms_codes::Order;
use dms_face::Defaults;
use dms_sign_text_causes::LineCause;
use dms_table::Services;
use dms_text::{Line, Lines, are_same};
use dms_text_forms::{Keyword, LineWords, Wanted, WordFault, WordName};

/// The columns and rows of a matrix.
#[derive(Clone, Copy)]
pub(crate) struct Size {
    pub width: u16,
    pub height: u16,
}

/// The community that may read, and the one that may also write.
#[derive(Clone, Copy)]
pub(crate) struct Communities<'a> {
    pub reader: &'a [u8],
    pub writer: &'a [u8],
}

/// How many changeable and volatile rows there are.
#[derive(Clone, Copy)]
pub(crate) struct RowCounts {
    pub changeable: u8,
    pub volatile: u8,
}

/// The defaults that stand first: of colours, and of flashing in tenths of a second.
#[derive(Clone, Copy)]
pub(crate) struct ColoursAndFlash {
    pub background: u8,
    pub foreground: u8,
    pub flash_on: u8,
    pub flash_off: u8,
}

/// What the first four lines say.
#[derive(Clone, Copy)]
pub(crate) struct Beginning<'a> {
    pub size: Size,
    pub communities: Communities<'a>,
    pub rows: RowCounts,
    pub order: Order,
}

/// What the first seven lines say.
#[derive(Clone, Copy)]
pub(crate) struct Head<'a> {
    pub beginning: Beginning<'a>,
    pub services: Services,
    pub defaults: Defaults,
    pub first: u32,
}

/// `size WIDTH HEIGHT`.
#[tactic(auto, unfolding(crate::specs::DescriptionReading::size_of), using(crate::proofs::Said::words))]
fn size_of(line: &[u8]) -> Result<Size, WordFault>
    ensures said { IfOk result (λ x. size_of (words_of line.now) ≡ Some x) }
    ensures none { IfErr result (λ fault. size_of (words_of line.now) ≡ None) }
    ensures taken { IfOk result (λ x. word_fault size_words (words_of line.now) ≡ None) }
    ensures fault { IfErr result (λ fault. word_fault size_words (words_of line.now) ≡ Some fault) }
{
    let words = LineWords::of(line).keyword(Keyword::Size)?;
    let (width, words) = words.number(0, 65535)?;
    let (height, words) = words.number(0, 65535)?;
    words.end()?;
    Ok(Size { width, height })
}

/// `communities READER WRITER`.
#[tactic(auto, unfolding(crate::specs::DescriptionReading::communities_of), using(crate::proofs::Said::words))]
fn communities_of(line: &[u8]) -> Result<Communities<'_>, WordFault>
    ensures said { IfOk result (λ x. communities_of (words_of line.now) ≡ Some (communities_seen x)) }
    ensures none { IfErr result (λ fault. communities_of (words_of line.now) ≡ None) }
    ensures taken { IfOk result (λ x. word_fault communities_words (words_of line.now) ≡ None) }
    ensures fault { IfErr result (λ fault. word_fault communities_words (words_of line.now) ≡ Some fault) }
{
    let words = LineWords::of(line).keyword(Keyword::Communities)?;
    let (reader, words) = words.name(WordName::Reader)?;
    let (writer, words) = words.name(WordName::Writer)?;
    words.end()?;
    Ok(Communities { reader, writer })
}

/// `rows CHANGEABLE VOLATILE`.
#[tactic(auto, unfolding(crate::specs::DescriptionReading::row_counts_of), using(crate::proofs::Said::words))]
fn row_counts_of(line: &[u8]) -> Result<RowCounts, WordFault>
    ensures said { IfOk result (λ x. row_counts_of (words_of line.now) ≡ Some x) }
    ensures none { IfErr result (λ fault. row_counts_of (words_of line.now) ≡ None) }
    ensures taken { IfOk result (λ x. word_fault rows_words (words_of line.now) ≡ None) }
    ensures fault { IfErr result (λ fault. word_fault rows_words (words_of line.now) ≡ Some fault) }
{
    let words = LineWords::of(line).keyword(Keyword::Rows)?;
    let (changeable, words) = words.octet(0, 255)?;
    let (volatile, words) = words.octet(0, 255)?;
    words.end()?;
    Ok(RowCounts {
        changeable,
        volatile,
    })
}

/// `high` or `swapped`, and the words after it.
#[tactic(auto, using(crate::proofs::Said::orders))]
fn order(words: LineWords<'_>) -> Result<(Order, LineWords<'_>), WordFault>
    requires { words.place < 16 }
    ensures said { IfOk result (λ x. order_at words.entry.words ≡ Some (x.0, x.1.words)) }
    ensures none { IfErr result (λ fault. order_at words.entry.words ≡ None) }
    ensures takes { IfOk result (λ x. Takes (wants.Either keywords.High keywords.Swapped) words.entry x.1) }
    ensures lacks { IfErr result (Lacks (wants.Either keywords.High keywords.Swapped) words.entry) }
{
    let (word, words) = words.word(Wanted::Either(Keyword::High, Keyword::Swapped))?;
    if are_same(word, b"high") {
        Ok((Order::High, words))
    } else {
        Ok((Order::Swapped, words))
    }
}

/// `order high` or `order swapped`.
#[tactic(auto, unfolding(crate::specs::DescriptionReading::order_of), using(crate::proofs::Said::words))]
fn order_of(line: &[u8]) -> Result<Order, WordFault>
    ensures said { IfOk result (λ x. order_of (words_of line.now) ≡ Some x) }
    ensures none { IfErr result (λ fault. order_of (words_of line.now) ≡ None) }
    ensures taken { IfOk result (λ x. word_fault order_words (words_of line.now) ≡ None) }
    ensures fault { IfErr result (λ fault. word_fault order_words (words_of line.now) ≡ Some fault) }
{
    let words = LineWords::of(line).keyword(Keyword::Order)?;
    let (order, words) = order(words)?;
    words.end()?;
    Ok(order)
}

/// `has BEACON PIXEL`, each 0 or 1.
#[tactic(auto, unfolding(crate::specs::DescriptionReading::services_of), using(crate::proofs::Said::words))]
fn services_of(line: &[u8]) -> Result<Services, WordFault>
    ensures said { IfOk result (λ x. services_of (words_of line.now) ≡ Some x) }
    ensures none { IfErr result (λ fault. services_of (words_of line.now) ≡ None) }
    ensures taken { IfOk result (λ x. word_fault has_words (words_of line.now) ≡ None) }
    ensures fault { IfErr result (λ fault. word_fault has_words (words_of line.now) ≡ Some fault) }
{
    let words = LineWords::of(line).keyword(Keyword::Has)?;
    let (beacon, words) = words.octet(0, 1)?;
    let (pixel, words) = words.octet(0, 1)?;
    words.end()?;
    Ok(Services {
        beacon: beacon == 1,
        pixel: pixel == 1,
    })
}

#[tactic(auto, unfolding(crate::specs::DescriptionReading::colours_and_flash_at), using(crate::proofs::Said::words))]
fn colours_and_flash(words: LineWords<'_>) -> Result<(ColoursAndFlash, LineWords<'_>), WordFault>
    requires { words.place < 16 }
    ensures said { IfOk result (λ x. colours_and_flash_at words.entry.words ≡ Some (x.0, x.1.words)) }
    ensures none { IfErr result (λ fault. colours_and_flash_at words.entry.words ≡ None) }
    ensures place { IfOk result (λ x. x.1.place ≡ words.entry.place + 4) }
    ensures taken { IfOk result (λ x. (more : List Wanted)
        → fault_from words.entry.place (four_octets ++ more) words.entry.words
        ≡ fault_from x.1.place more x.1.words) }
    ensures fault { IfErr result (λ fault. (more : List Wanted)
        → fault_from words.entry.place (four_octets ++ more) words.entry.words ≡ Some fault) }
{
    let (background, words) = words.octet(0, 255)?;
    let (foreground, words) = words.octet(0, 255)?;
    let (flash_on, words) = words.octet(0, 255)?;
    let (flash_off, words) = words.octet(0, 255)?;
    let found = ColoursAndFlash {
        background,
        foreground,
        flash_on,
        flash_off,
    };
    Ok((found, words))
}

/// The defaults that begin so: the font, the justifications and the page times follow.
#[tactic(auto, unfolding(crate::specs::DescriptionReading::defaults_with), using(crate::proofs::Said::words))]
fn defaults_with(first: ColoursAndFlash, words: LineWords<'_>) -> Result<Defaults, WordFault>
    requires { words.place < 16 }
    ensures said { IfOk result (λ x. defaults_with first words.entry.words ≡ Some x) }
    ensures none { IfErr result (λ fault. defaults_with first words.entry.words ≡ None) }
    ensures taken { IfOk result (λ x. fault_from words.entry.place five_octets words.entry.words ≡ None) }
    ensures fault { IfErr result (λ fault. fault_from words.entry.place five_octets words.entry.words ≡ Some fault) }
{
    let (font, words) = words.octet(0, 255)?;
    let (line, words) = words.octet(0, 255)?;
    let (page, words) = words.octet(0, 255)?;
    let (on, words) = words.octet(0, 255)?;
    let (off, words) = words.octet(0, 255)?;
    words.end()?;
    Ok(Defaults {
        background: first.background,
        foreground: first.foreground,
        flash_on: first.flash_on,
        flash_off: first.flash_off,
        font,
        line,
        page,
        on,
        off,
    })
}

/// `defaults` and nine numbers.
#[tactic(auto, unfolding(crate::specs::DescriptionReading::defaults_of), using(crate::proofs::Said::words))]
fn defaults_of(line: &[u8]) -> Result<Defaults, WordFault>
    ensures said { IfOk result (λ x. defaults_of (words_of line.now) ≡ Some x) }
    ensures none { IfErr result (λ fault. defaults_of (words_of line.now) ≡ None) }
    ensures taken { IfOk result (λ x. word_fault defaults_words (words_of line.now) ≡ None) }
    ensures fault { IfErr result (λ fault. word_fault defaults_words (words_of line.now) ≡ Some fault) }
{
    let words = LineWords::of(line).keyword(Keyword::Defaults)?;
    let (first, words) = colours_and_flash(words)?;
    let defaults = defaults_with(first, words)?;
    Ok(defaults)
}

/// `first NUMBER`.
#[tactic(auto, unfolding(crate::specs::DescriptionReading::first_of), using(crate::proofs::Said::words))]
fn first_of(line: &[u8]) -> Result<u32, WordFault>
    ensures said { IfOk result (λ x. first_of (words_of line.now) ≡ Some x) }
    ensures none { IfErr result (λ fault. first_of (words_of line.now) ≡ None) }
    ensures taken { IfOk result (λ x. word_fault first_words (words_of line.now) ≡ None) }
    ensures fault { IfErr result (λ fault. word_fault first_words (words_of line.now) ≡ Some fault) }
{
    let words = LineWords::of(line).keyword(Keyword::First)?;
    let (first, words) = words.four_octets()?;
    words.end()?;
    Ok(first)
}

/// The next line, and the lines after it.
fn next_line(lines: Lines<'_>) -> Result<(Line<'_>, Lines<'_>), LineFault>
    ensures found { IfOk result (λ x. lines_left lines.entry ≡ numbered_line x.0 ∷ lines_left x.1) }
    ensures last { IfOk result (λ x. number_after x.1 ≡ number_after lines.entry) }
    ensures missing { IfErr result (λ fault. lines_left lines.entry ≡ []) }
    ensures number { IfErr result (λ fault. fault.line ≡ number_after lines.entry) }
    ensures cause { IfErr result (λ fault. fault.cause ≡ causes.NoEnd) }
{
    let mut lines = lines;
    match lines.next_line() {
        Some(line) => Ok((line, lines)),
        None => Err(LineFault {
            line: lines.number(),
            cause: LineCause::NoEnd,
        }),
    }
}

/// What the line `size ..` says, which comes next, and the lines after it.
#[tactic(auto, using(crate::proofs::Misfits::one))]
fn size_line(lines: Lines<'_>) -> Result<(Size, Lines<'_>), LineFault>
    ensures found { IfOk result (λ x. FindsLine size_of size_words lines.entry x.0 x.1) }
    ensures none { IfErr result (λ fault. FindsNoLine size_of size_words lines.entry fault) }
{
    let (line, lines) = next_line(lines)?;
    match size_of(line.octets) {
        Ok(size) => Ok((size, lines)),
        Err(fault) => Err(LineFault::of_word(line.number, fault)),
    }
}

/// What the line `communities ..` says, which comes next, and the lines after it.
#[tactic(auto, using(crate::proofs::Misfits::one))]
fn communities_line(lines: Lines<'_>) -> Result<(Communities<'_>, Lines<'_>), LineFault>
    ensures found { IfOk result
        (λ x. FindsLine communities_of communities_words lines.entry (communities_seen x.0) x.1) }
    ensures none { IfErr result (λ fault. FindsNoLine communities_of communities_words lines.entry fault) }
{
    let (line, lines) = next_line(lines)?;
    match communities_of(line.octets) {
        Ok(communities) => Ok((communities, lines)),
        Err(fault) => Err(LineFault::of_word(line.number, fault)),
    }
}

/// What the line `rows ..` says, which comes next, and the lines after it.
#[tactic(auto, using(crate::proofs::Misfits::one))]
fn rows_line(lines: Lines<'_>) -> Result<(RowCounts, Lines<'_>), LineFault>
    ensures found { IfOk result (λ x. FindsLine row_counts_of rows_words lines.entry x.0 x.1) }
    ensures none { IfErr result (λ fault. FindsNoLine row_counts_of rows_words lines.entry fault) }
{
    let (line, lines) = next_line(lines)?;
    match row_counts_of(line.octets) {
        Ok(rows) => Ok((rows, lines)),
        Err(fault) => Err(LineFault::of_word(line.number, fault)),
    }
}

/// What the line `order ..` says, which comes next, and the lines after it.
#[tactic(auto, using(crate::proofs::Misfits::one))]
fn order_line(lines: Lines<'_>) -> Result<(Order, Lines<'_>), LineFault>
    ensures found { IfOk result (λ x. FindsLine order_of order_words lines.entry x.0 x.1) }
    ensures none { IfErr result (λ fault. FindsNoLine order_of order_words lines.entry fault) }
{
    let (line, lines) = next_line(lines)?;
    match order_of(line.octets) {
        Ok(order) => Ok((order, lines)),
        Err(fault) => Err(LineFault::of_word(line.number, fault)),
    }
}

impl<'a> Beginning<'a> {
    /// The first four lines, and the lines after them.
    #[tactic(auto, unfolding(crate::specs::DescriptionReading::beginning_at), using(crate::proofs::Misfits::more))]
    fn read(lines: Lines<'a>) -> Result<(Beginning<'a>, Lines<'a>), LineFault>
        ensures found { IfOk result
            (λ x. beginning_at (octets_left lines.entry) ≡ Some (beginning_seen x.0, octets_left x.1)) }
        ensures none { IfErr result (λ fault. beginning_at (octets_left lines.entry) ≡ None) }
        ensures forms { IfOk result (λ x. HaveForms first_four_forms first_four_words lines.entry x.1) }
        ensures misfit { IfErr result (λ fault. IsMisfit first_four_forms first_four_words lines.entry fault) }
    {
        let (size, lines) = size_line(lines)?;
        let (communities, lines) = communities_line(lines)?;
        let (rows, lines) = rows_line(lines)?;
        let (order, lines) = order_line(lines)?;
        let beginning = Beginning {
            size,
            communities,
            rows,
            order,
        };
        Ok((beginning, lines))
    }
}

/// What the line `has ..` says, which comes next, and the lines after it.
#[tactic(auto, using(crate::proofs::Misfits::one))]
fn services_line(lines: Lines<'_>) -> Result<(Services, Lines<'_>), LineFault>
    ensures found { IfOk result (λ x. FindsLine services_of has_words lines.entry x.0 x.1) }
    ensures none { IfErr result (λ fault. FindsNoLine services_of has_words lines.entry fault) }
{
    let (line, lines) = next_line(lines)?;
    match services_of(line.octets) {
        Ok(services) => Ok((services, lines)),
        Err(fault) => Err(LineFault::of_word(line.number, fault)),
    }
}

/// What the line `defaults ..` says, which comes next, and the lines after it.
#[tactic(auto, using(crate::proofs::Misfits::one))]
fn defaults_line(lines: Lines<'_>) -> Result<(Defaults, Lines<'_>), LineFault>
    ensures found { IfOk result (λ x. FindsLine defaults_of defaults_words lines.entry x.0 x.1) }
    ensures none { IfErr result (λ fault. FindsNoLine defaults_of defaults_words lines.entry fault) }
{
    let (line, lines) = next_line(lines)?;
    match defaults_of(line.octets) {
        Ok(defaults) => Ok((defaults, lines)),
        Err(fault) => Err(LineFault::of_word(line.number, fault)),
    }
}

/// What the line `first ..` says, which comes next, and the lines after it.
#[tactic(auto, using(crate::proofs::Misfits::one))]
fn first_line(lines: Lines<'_>) -> Result<(u32, Lines<'_>), LineFault>
    ensures found { IfOk result (λ x. FindsLine first_of first_words lines.entry x.0 x.1) }
    ensures none { IfErr result (λ fault. FindsNoLine first_of first_words lines.entry fault) }
{
    let (line, lines) = next_line(lines)?;
    match first_of(line.octets) {
        Ok(first) => Ok((first, lines)),
        Err(fault) => Err(LineFault::of_word(line.number, fault)),
    }
}

impl<'a> Head<'a> {
    /// The first seven lines, and the lines after them.
    #[tactic(auto, unfolding(crate::specs::DescriptionReading::head_at), using(crate::proofs::Misfits::seven))]
    pub(crate) fn read(lines: Lines<'a>) -> Result<(Head<'a>, Lines<'a>), LineFault>
        ensures found { IfOk result (λ x. head_at (octets_left lines.entry) ≡ Some (head_seen x.0, octets_left x.1)) }
        ensures none { IfErr result (λ fault. head_at (octets_left lines.entry) ≡ None) }
        ensures forms { IfOk result (λ x. HaveForms first_forms head_words lines.entry x.1) }
        ensures misfit { IfErr result (λ fault. IsMisfit first_forms head_words lines.entry fault) }
    {
        let (beginning, lines) = Beginning::read(lines)?;
        let (services, lines) = services_line(lines)?;
        let (defaults, lines) = defaults_line(lines)?;
        let (first, lines) = first_line(lines)?;
        let head = Head {
            beginning,
            services,
            defaults,
            first,
        };
        Ok((head, lines))
    }
}
