//! Edits of the bench sign's description, each with what is said of the text then.

/// Edits of the bench sign's description, and what is said of it then. An edit is the beginning of lines and what
/// stands in their place, with a slash between two lines.
pub const WORDS: &str = "\
size=size 23|1: word 3: the line ends where a number from 0 to 65535 is wanted
size=size 23  14|1: word 3: two spaces, or a space at an end of the line
size=size 23 14 |1: word 4: two spaces, or a space at an end of the line
size=size 23 65536|1: word 3: a number from 0 to 65535 is wanted
size=size 23 14 1|1: word 4: no more words are wanted
size=width 23 14|1: word 1: the word size is wanted
communities=communities public|2: word 3: the line ends where the second community is wanted
rows=rows 2 256|3: word 3: a number from 0 to 255 is wanted
order=order low|4: word 2: high or swapped is wanted
has=has 2 0|5: word 2: a number from 0 to 1 is wanted
defaults=defaults 0 9 5 5 1 3 2 30|6: word 10: the line ends where a number from 0 to 255 is wanted
first=first 4294967296|7: word 2: a number from 0 to 4294967295 is wanted
permanent=permanent 4 - 0 0 100|8: word 2: a text in hexadecimal is wanted
permanent=permanent 42 x 0 0 100|8: word 3: an owner in hexadecimal is wanted
font 1=font 0 height 7 space 1 line 1 version 0001|9: word 2: a number from 1 to 255 is wanted
font 1=font 1 high 7 space 1 line 1 version 0001|9: word 3: the word height is wanted
font 1=font 1 height 7 space 1 line 1 version 1|9: word 10: a version of four hexadecimal digits is wanted
glyph 49=glyph 49 2|10: word 4: the line ends where a picture in hexadecimal is wanted
glyph 49=glyph 49 33 7554|10: word 3: a number from 1 to 32 is wanted
end=end now|17: word 2: no more words are wanted";

/// The same of lines that may not stand where they do.
pub const LINES: &str = "\
size=#;communities=#;rows=#;order=#;has=#;defaults=#;first=#;permanent=#;font=#;glyph=#;end=#|18: the text ends before its line `end`
end=#|18: the text ends before its line `end`
end=stop|17: a row, a font, a character or `end` is wanted
end=end/end|18: no line may stand after `end`
end=permanent 42 - 0 0 100|17: a permanent row stands before all fonts
permanent=glyph 49 2 7554|8: a character stands after its font
glyph 49=glyph 49 2 75|10: bits that do not fit the picture
glyph 66=glyph 65 5 f463e8c7c0|12: a character for the second time";

/// The same of signs that can not be made.
pub const SIGNS: &str = "\
size=size 0 14|17: the matrix has no columns
size=size 257 14|17: the matrix is wider than 256
size=size 23 0|17: the matrix has no rows
size=size 23 65|17: the matrix is higher than 64
font=#;glyph=#|17: there is no font
end=font 3 height 1 space 0 line 0 version 0000/font 4 height 1 space 0 line 0 version 0000/font 5 height 1 space 0 line 0 version 0000/end|20: there are more than four fonts
font 2=font 1 height 5 space 1 line 1 version 0002|17: two fonts have the number 1
defaults=defaults 10 9 5 5 1 3 2 30 0|17: the default background 10 is no colour
defaults=defaults 0 10 5 5 1 3 2 30 0|17: the default foreground 10 is no colour
defaults=defaults 0 9 5 5 3 3 2 30 0|17: the default font 3 is none of the face's
defaults=defaults 0 9 5 5 1 1 2 30 0|17: the default line justification 1 is none
defaults=defaults 0 9 5 5 1 3 5 30 0|17: the default page justification 5 is none
communities=communities 012345678901234567890123456789012 admin|17: the first community has not 1 to 32 octets
communities=communities public 012345678901234567890123456789012|17: the second community has not 1 to 32 octets
communities=communities public public|17: both communities are the same
rows=rows 65 1|17: there are more than 64 changeable rows
rows=rows 2 17|17: there are more than 16 volatile rows";

/// The same of permanent rows that can not stand.
pub const ROWS: &str = "\
permanent=permanent 42 - 2 0 100|17: permanent row 1: its beacon is neither 0 nor 1
permanent=permanent 42 - 0 2 100|17: permanent row 1: its pixel service is neither 0 nor 1
permanent=permanent 42 - 0 0 0|17: permanent row 1: its priority is 0
permanent=permanent 42 - 1 0 100;has=has 0 0|17: permanent row 1: the sign has no beacons
permanent=permanent 42 - 0 1 100|17: permanent row 1: the sign has no pixel service
permanent=permanent 42 - 0 0 100/permanent 4261 - 0 0 100|18: permanent row 2: its text: character not defined at octet 1";
