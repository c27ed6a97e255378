// What a line is answered, before the record or the text is taken out of its area.
use forms::Answer;

// A record or a text has this length.
// Kept: a length and not the bytes, since an answer that borrows the area would tie the reply to its loan.
pub type Reply = Answer<usize>;
