//! What is known of a text while its items are walked: running sums of the open line and the open page.

ghost use Rattle.std.specs.Prelude.{◌≡◌, ℕ, ◌<◌, ◌≤◌, List, [], ◌∷◌, ◌++◌, length, map, true, false, not};
ghost use Rattle.std.specs.Prelude.{Some, None, Result, IsTrue, IfNone, if◌then◌else◌};
ghost use Rattle.dms_face.specs.declared.room.Places.{Places as PlacesModel};
ghost use Rattle.dms_multi.specs.Outcomes.{outcomes_from};
ghost use Rattle.dms_face.specs.declared.multi_fault.MultiFault.{MultiFault};
ghost use Rattle.dms_face.specs.Runs.{run_after, IsRunning};
ghost use Rattle.dms_face.specs.Walked.{IsWalkedTo};
ghost use Rattle.dms_multi.specs.declared.item.Item.TheVariants.{JustLine};
ghost use Rattle.dms_face.specs.Face.{fit};
ghost use Rattle.dms_face.specs.Justification.{place_of_part};
ghost use Rattle.dms_face.specs.declared.room.Block.{Block as BlockModel};
ghost use Rattle.dms_face.specs.Layout.{Layout, Line, is_blank, under, open_line, standing, closed, has_line_in};
ghost use Rattle.dms_face.specs.Layout.{with_character, with_line, with_page, with_part, with_item, blank_layout};
ghost use Rattle.dms_face.specs.Room.{line_block, lines_fit};
ghost use Rattle.dms_face.specs.Fit.{is_taken, misuse};
ghost use Rattle.dms_face.specs.OnePass.{room_fault, open_fits, page_fault, part_fault, local_fault};
ghost use Rattle.dms_face.specs.Totals.{MatchesBlocks, AreWithin, Matches, Holds, AreSmall, Takes};

use crate::defaults::Defaults;
use crate::face::Face;
use crate::justification::{Part, Side};
use crate::multi_fault::MultiFaultCode;
use crate::room::{Block, Places};
use dms_face_font::{Font, Glyph};
use dms_multi::Item;

/// The most pages of a text.
pub const MAX_PAGES: usize = 6;

/// The pages that are closed, the lines of the open page, the characters of the open line with the greatest height and
/// spacing of their fonts, the gap above that line, and what holds for the next character: its side, its part and its
/// font.
#[derive(Clone, Copy)]
pub struct Totals<'a> {
    pub(crate) pages: usize,
    pub(crate) lines: Places,
    pub(crate) characters: Places,
    pub(crate) height: u8,
    pub(crate) spacing: u8,
    pub(crate) gap: Option<u8>,
    pub(crate) side: Side,
    pub(crate) part: Part,
    pub(crate) font: &'a Font,
}

impl<'a> Totals<'a> {
    /// Whether the open line has a character.
    fn holds_character(&self) -> bool
        ensures { (layout : Layout) → Matches self.now layout → result ≡ not (is_blank layout.characters) }
    {
        self.characters.any()
    }

    /// The open line, as it is where it is closed.
    fn line_block(&self) -> Block
        ensures block { (layout : Layout) → Matches self.now layout → result ≡ line_block (open_line layout) }
    {
        let (height, spacing) = if self.holds_character() {
            (self.height, self.spacing)
        } else {
            (self.font.height(), self.font.line_spacing())
        };
        Block {
            place: self.part.place(),
            size: height,
            spacing,
            gap: self.gap,
        }
    }

    /// Whether the open page has room for its lines while the open line is open.
    #[inline]
    fn standing_fits(&self, face: &Face) -> bool
        requires { AreWithin 256 self.now.lines }
        ensures { (layout : Layout) → Matches self.now layout → result ≡ lines_fit face.now (standing layout) }
    {
        let whole = u32::from(face.height());
        if !self.holds_character() {
            return self.lines.fit(whole);
        }
        self.lines.fit_with(self.line_block(), whole)
    }

    /// Whether the open page has a line in the part of the open line.
    #[tactic(auto, using(crate::proofs::PartLaws::has_line))]
    fn holds_line(&self) -> bool
        requires { AreWithin 256 self.now.lines }
        ensures { (layout : Layout) → Matches self.now layout → result ≡ has_line_in layout.style.part layout.lines }
    {
        self.lines.any_at(self.part.place())
    }

    /// Whether the open line is one of its page's where its part is closed: a single line without a character is none.
    fn counts(&self) -> bool
        requires { AreWithin 256 self.now.lines }
        ensures { (layout : Layout) → Matches self.now layout
            → closed layout ≡ (if result then layout.lines ++ open_line layout ∷ [] else layout.lines) }
    {
        self.holds_character() || self.holds_line()
    }

    /// The open line joins the closed lines of its page. Until another opens, nothing else is asked of the sums.
    #[inline]
    fn close_line(&mut self)
        requires { AreWithin 256 self.old.lines }
        ensures matches { (layout : Layout) → Matches self.old layout
            → MatchesBlocks self.new.lines (map line_block (layout.lines ++ open_line layout ∷ [])) }
        ensures within { AreWithin 766 self.new.lines }
        ensures same { self.old ≡ record self.new { lines = self.old.lines } }
    {
        let block = self.line_block();
        self.lines.push(block);
    }

    /// The open line joins the closed lines of its page, where it counts.
    #[inline]
    fn close_part(&mut self)
        requires { AreWithin 256 self.old.lines }
        ensures matches { (layout : Layout) → Matches self.old layout
            → MatchesBlocks self.new.lines (map line_block (closed layout)) }
        ensures within { AreWithin 766 self.new.lines }
        ensures same { self.old ≡ record self.new { lines = self.old.lines } }
    {
        if self.counts() {
            self.close_line();
        }
    }

    /// After the closed lines of the open page a line opens, with this gap above it.
    #[inline]
    fn open_line(&mut self, gap: Option<u8>)
        ensures matches { (before : PlacesModel) (layout : Layout) (closed_lines : List Line)
            → Matches (record self.old { lines = before }) layout
            → MatchesBlocks self.old.lines (map line_block closed_lines)
            → Matches self.new (record layout { lines = closed_lines; characters = []; gap = gap }) }
        ensures small { self.old.pages ≤ 5 → AreWithin 256 self.old.lines → AreSmall self.new }
        ensures same { self.new.pages ≡ self.old.pages }
    {
        self.characters = Places::empty();
        self.height = 0;
        self.spacing = 0;
        self.gap = gap;
    }

    /// A character joins the open line; whether the line grows, and so may take more room on its page.
    #[tactic(auto, using(crate::proofs::GrowthLaws::growth))]
    #[inline]
    fn add_character(&mut self, glyph: &Glyph) -> bool
        requires small { AreSmall self.old }
        ensures matches { (layout : Layout) → Matches self.old layout
            → Matches self.new (with_character layout (Some glyph.now)) }
        ensures same { (layout : Layout) → Matches self.old layout → result ≡ false
            → map line_block (standing (with_character layout (Some glyph.now))) ≡ map line_block (standing layout) }
        ensures within { AreWithin 766 self.new.characters }
        ensures small { AreWithin 256 self.new.characters → AreSmall self.new }
        ensures lines { AreWithin 256 self.new.lines }
    {
        let height = self.font.height();
        let spacing = self.font.line_spacing();
        let grows = height > self.height || spacing > self.spacing;
        self.characters.push(Block {
            place: self.side.place(),
            size: glyph.width(),
            spacing: self.font.character_spacing(),
            gap: None,
        });
        if grows {
            self.height = self.height.max(height);
            self.spacing = self.spacing.max(spacing);
        }
        grows
    }

    /// Whether the open line has room, and the open page too where the line has grown.
    #[inline]
    fn open_fits(&self, face: &Face, grown: bool) -> bool
        requires within { AreWithin 256 self.now.lines }
        requires characters { AreWithin 766 self.now.characters }
        ensures fit { (layout : Layout) → Matches self.now layout
            → (grown ≡ false → lines_fit face.now (standing layout) ≡ true) → result ≡ open_fits face.now layout }
        ensures within { IsTrue result → AreWithin 256 self.now.characters }
    {
        self.characters.fit(u32::from(face.width())) && (!grown || self.standing_fits(face))
    }

    /// A character joins the open line, or does not fit.
    #[inline]
    fn take_character(&mut self, face: &Face, glyph: &Glyph) -> Option<MultiFaultCode>
        requires { AreSmall self.old }
        ensures { Takes face.now self.old self.new result
            (λ (layout : Layout). room_fault (open_fits face.now (with_character layout (Some glyph.now))))
            (λ (layout : Layout). with_character layout (Some glyph.now)) }
    {
        let grown = self.add_character(glyph);
        if self.open_fits(face, grown) {
            None
        } else {
            Some(MultiFaultCode::TextTooBig)
        }
    }

    /// Whether a character of the font makes the open line higher, or more widely spaced.
    fn grows(&self) -> bool
        ensures low { result ≡ false → self.now.font.now.height ≤ self.now.height }
        ensures close { result ≡ false → self.now.font.now.line_spacing ≤ self.now.spacing }
    {
        self.font.height() > self.height || self.font.line_spacing() > self.spacing
    }

    /// What the room of the characters on this side of the open line must stay below for characters of the font to join
    /// them, and to change nothing else: 0 where they may change more.
    #[inline]
    fn run_limit(&self, face: &Face) -> u32
        requires { AreSmall self.now }
        ensures running { 0 < result → IsRunning face.now.width self.now result }
        ensures small { result ≤ 257 }
    {
        let place = self.side.place();
        let run = self.characters.at(place);
        if !run.any || run.spacing != self.font.character_spacing() || self.grows() {
            return 0;
        }
        self.characters.limit(place, u32::from(face.width()))
    }

    /// The characters that octets spell by themselves next join the open line, as long as they surely have room and
    /// change nothing else. What is left of the text.
    #[inline]
    pub(crate) fn take_run<'t>(&mut self, face: &Face, text: &'t [u8]) -> &'t [u8]
        requires { AreSmall self.old }
        ensures walked { (defaults : Defaults) (end : ℕ) (answer : Result ℕ MultiFault)
            → IsWalkedTo (under face.now defaults) end self.old (outcomes_from end text.now) answer
            → IsWalkedTo (under face.now defaults) end self.new (outcomes_from end result.now) answer }
        ensures rest { length result.now ≤ length text.now }
    {
        if !begins_plainly(text) {
            return text;
        }
        let limit = self.run_limit(face);
        if limit == 0 {
            return text;
        }
        let place = self.side.place();
        let mut size = self.characters.at(place).size;
        let rest = run_after(self.font, limit, text, &mut size);
        self.characters.set_size(place, size);
        rest
    }

    /// The open line is closed and the next one opens, or it does not fit.
    fn take_line(&mut self, face: &Face, gap: Option<u8>) -> Option<MultiFaultCode>
        requires { AreSmall self.old }
        ensures { Takes face.now self.old self.new result
            (λ (layout : Layout). room_fault (lines_fit face.now (layout.lines ++ open_line layout ∷ [])))
            (λ (layout : Layout). with_line layout gap) }
    {
        self.close_line();
        if !self.lines.fit(u32::from(face.height())) {
            return Some(MultiFaultCode::TextTooBig);
        }
        self.open_line(gap);
        None
    }

    /// Whether the open page has room for its lines once it is closed.
    fn closed_fits(&self, face: &Face) -> bool
        requires small { AreSmall self.now }
        ensures { (layout : Layout) → Matches self.now layout → result ≡ lines_fit face.now (closed layout) }
    {
        let whole = u32::from(face.height());
        if self.counts() {
            self.lines.fit_with(self.line_block(), whole)
        } else {
            self.lines.fit(whole)
        }
    }

    /// The open page is closed and the next one opens, or it does not fit, or there are pages enough.
    #[tactic(auto, using(crate::proofs::RoomLaws::nothing_fits))]
    fn take_page(&mut self, face: &Face) -> Option<MultiFaultCode>
        requires { AreSmall self.old }
        ensures { Takes face.now self.old self.new result (λ (layout : Layout). page_fault face.now layout)
            (λ (layout : Layout). with_page layout) }
    {
        if !self.closed_fits(face) {
            return Some(MultiFaultCode::TextTooBig);
        }
        if self.pages + 1 >= MAX_PAGES {
            return Some(MultiFaultCode::TooManyPages);
        }
        self.lines = Places::empty();
        self.open_line(None);
        self.pages += 1;
        None
    }

    /// Whether a closed line of the open page stands in a part or after it.
    #[inline]
    fn is_taken(&self, part: Part) -> bool
        ensures { (blocks : List BlockModel) → MatchesBlocks self.now.lines blocks
            → result ≡ is_taken (place_of_part part) blocks }
    {
        self.lines.is_taken(part.place())
    }

    /// A line opens in another part of the page, or may not, or what is closed does not fit.
    fn take_part(&mut self, face: &Face, part: Part) -> Option<MultiFaultCode>
        requires { AreSmall self.old }
        ensures { Takes face.now self.old self.new result (λ (layout : Layout). part_fault face.now layout part)
            (λ (layout : Layout). with_part layout (record layout.style { part = part })) }
    {
        if part.is(self.part) {
            return None;
        }
        self.close_part();
        if self.is_taken(part) {
            return Some(MultiFaultCode::TagConflict);
        }
        if !self.lines.fit(u32::from(face.height())) {
            return Some(MultiFaultCode::TextTooBig);
        }
        self.open_line(None);
        self.part = part;
        None
    }

    /// The next characters stand on another side of the line, or may not.
    fn take_side(
        &mut self,
        face: &Face,
        defaults: &Defaults,
        side: Option<u8>,
    ) -> Option<MultiFaultCode>
        requires small { AreSmall self.old }
        requires fit { IsTrue (fit face.now.fonts defaults.now) }
        ensures { Takes (under face.now defaults.now) self.old self.new result
            (λ (layout : Layout). misuse (under face.now defaults.now) layout (Some (JustLine side)))
            (λ (layout : Layout). with_item (under face.now defaults.now) layout (JustLine side)) }
    {
        let side = Side::of_number(side.unwrap_or(defaults.line));
        if self.characters.goes_back(side.place()) {
            return Some(MultiFaultCode::TagConflict);
        }
        self.side = side;
        None
    }

    /// The next characters are of another font, or may not be.
    #[tactic(auto, using(crate::proofs::GrowthLaws::fonts))]
    fn take_font(
        &mut self,
        face: &'a Face,
        number: u8,
        version: Option<u16>,
    ) -> Option<MultiFaultCode>
        requires { AreSmall self.old }
        ensures { Takes face.now self.old self.new result
            (λ (layout : Layout). misuse face.now layout (Some (Item.Font (Some (number, version)))))
            (λ (layout : Layout). with_item face.now layout (Item.Font (Some (number, version)))) }
    {
        let Some(font) = face.font(number) else {
            return Some(MultiFaultCode::FontNotDefined);
        };
        match version {
            Some(version) if version != font.version() => {
                return Some(MultiFaultCode::FontVersionId);
            }
            _ => {}
        }
        self.font = font;
        None
    }

    /// The next characters are of the default font.
    #[tactic(auto, using(crate::proofs::GrowthLaws::fonts))]
    fn take_default_font(&mut self, face: &'a Face, defaults: &Defaults)
        requires small { AreSmall self.old }
        requires fit { IsTrue (fit face.now.fonts defaults.now) }
        ensures holds { (layout : Layout) → Holds (under face.now defaults.now) self.old layout
            → Holds (under face.now defaults.now) self.new
            (with_item (under face.now defaults.now) layout (Item.Font None)) }
        ensures small { AreSmall self.new }
    {
        if let Some(font) = face.font(defaults.font) {
            self.font = font;
        }
    }

    /// An item is taken, after those that were taken before it without a fault; or its fault where it stands.
    #[inline(always)]
    pub fn take(
        &mut self,
        face: &'a Face,
        defaults: &Defaults,
        item: Item,
    ) -> Option<MultiFaultCode>
        requires small { AreSmall self.old }
        requires fit { IsTrue (fit face.now.fonts defaults.now) }
        ensures { Takes (under face.now defaults.now) self.old self.new result
            (λ (layout : Layout). local_fault (under face.now defaults.now) layout (Some item))
            (λ (layout : Layout). with_item (under face.now defaults.now) layout item) }
    {
        match item {
            Item::Char(character) => match self.font.glyph(character) {
                Some(glyph) => self.take_character(face, glyph),
                None => Some(MultiFaultCode::CharacterNotDefined),
            },
            Item::NewLine(gap) => self.take_line(face, gap),
            Item::NewPage => self.take_page(face),
            Item::JustPage(part) => self.take_part(
                face,
                Part::of_number(part.unwrap_or(defaults.page)),
            ),
            Item::JustLine(side) => self.take_side(face, defaults, side),
            Item::Font(Some((number, version))) => self.take_font(face, number, version),
            Item::Font(None) => {
                self.take_default_font(face, defaults);
                None
            }
            Item::Background(_)
            | Item::Foreground(_)
            | Item::FlashOn { .. }
            | Item::FlashEnd
            | Item::PageTime { .. } => None,
        }
    }

    /// The fault of a text that ends here, if it has one.
    pub fn end_fault(&self, face: &Face) -> Option<MultiFaultCode>
        requires small { AreSmall self.now }
        ensures { (layout : Layout) → Matches self.now layout
            → result ≡ room_fault (lines_fit face.now (closed layout)) }
    {
        if self.closed_fits(face) {
            None
        } else {
            Some(MultiFaultCode::TextTooBig)
        }
    }

    /// What is known before the first item.
    #[tactic(auto, using(crate::proofs::RoomLaws::nothing_fits))]
    pub fn new(face: &'a Face, defaults: &Defaults) -> Totals<'a>
        requires { IsTrue (fit face.now.fonts defaults.now) }
        ensures holds { Holds (under face.now defaults.now) result (blank_layout (under face.now defaults.now)) }
        ensures small { AreSmall result }
    {
        Totals {
            pages: 0,
            lines: Places::empty(),
            characters: Places::empty(),
            height: 0,
            spacing: 0,
            gap: None,
            side: Side::of_number(defaults.line),
            part: Part::of_number(defaults.page),
            font: face.font(defaults.font).unwrap(),
        }
    }
}

/// Whether a text begins with an octet that spells a character by itself.
#[inline]
fn begins_plainly(text: &[u8]) -> bool {
    match text {
        [] => false,
        [octet, ..] => *octet != b'[' && *octet != b']',
    }
}

/// The octets after those that spell characters of the font by themselves, each behind the ones before it, as long as
/// these take less room than the limit; the size is how much they take.
#[tactic(auto, using(crate::proofs::WidthRuns::steps), unfolding(crate::specs::Runs::run_after))]
#[inline(always)]
fn run_after<'t>(font: &Font, limit: u32, text: &'t [u8], size: &mut u32) -> &'t [u8]
    requires size { size.old ≤ 256 }
    requires limit { limit ≤ 257 }
    ensures rest { result.now ≡ (run_after font.now limit text.now size.old).0 }
    ensures size { size.new ≡ (run_after font.now limit text.now size.old).1 }
    ensures shorter { length result.now ≤ length text.now }
{
    let spacing = u32::from(font.character_spacing());
    let mut rest = text;
    let mut taken = *size;
    'octets: while let [octet, more @ ..] = rest {
        let longer = taken + spacing + u32::from(font.plain_width(*octet));
        if longer >= limit {
            break;
        }
        taken = longer;
        rest = more;
    }
    *size = taken;
    rest
}
