//! A wire's number as text in one word: its digits and a space, each a byte, and in the top byte how many these are. A
//! word is stored whole, eight bytes at once; what it stores after its text is written over by what follows.
//! A table, filled once a call, holds the words of the numbers below a thousand, and from entry 1,000 on what three
//! digits more add to a word; so the word of a number of up to six digits takes two entries. Where a call has fewer
//! wires, only the words of these are filled in, and the front of the table serves. 2^56: how many bytes of text a word
//! has stands in its top byte.
pub(crate) const TOP: u64 = 72057594037927936;
