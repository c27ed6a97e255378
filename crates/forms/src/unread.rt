// Where a line cannot go on.
ghost use Rattle.std.specs.Prelude.{◌≡◌, length};
ghost use Rattle.forms.specs.Said.{said};
ghost use Rattle.forms.specs.Scans.{either as either_column, limited as limited_column};

// The most bytes that a line may have.
const LIMIT: usize = 16384;

// The column of the byte at which a line cannot go on, counted from 1.
#[derive(Clone, Copy, PartialEq, Eq, Debug)]
pub struct Unread(pub usize);

// One of two forms: the one that was read, or else the greater column.
pub(crate) fn either<F: Drop>(one: Result<F, Unread>, other: Result<F, Unread>) -> Result<F, Unread>
    ensures { said (λ f. f) result ≡ either_column (said (λ f. f) one) (said (λ f. f) other) }
{
    one.or_else(|Unread(a)| other.map_err(|Unread(b)| Unread(a.max(b))))
}

// What was read of a line that is not too long, and past the limit the column after it.
pub(crate) fn limited<F: Drop>(line: &[u8], read: Result<F, Unread>) -> Result<F, Unread>
    ensures { said (λ f. f) result ≡ limited_column (length line.now) (said (λ f. f) read) }
{
    let form = read.map_err(|Unread(column)| Unread(column.min(LIMIT + 1)))?;
    if line.len() > LIMIT {
        return Err(Unread(LIMIT + 1));
    }
    Ok(form)
}
