// Entries in bytes: values of one type, each in so many bytes, one behind the other.
ghost use Rattle.std.specs.Prelude.{◌≡◌, ℕ, ◌*◌, ◌≤◌, List, ◌++◌, length, drop};
ghost use Rattle.image.specs.Entries.{entries_bytes, entries_of};

// A value with a place of its own in a session's bytes, where it takes as many as its type says.
pub(crate) trait Entry: Copy {
    const LENGTH: usize;

    ghost LENGTH: { ℕ };

    // Its bytes.
    ghost image: { Self → List ℕ };

    // What bytes say of it.
    ghost of_bytes: { List ℕ → Self };

    // The value at the start of a slice.
    fn read(s: &[u8]) -> Self
        requires { LENGTH ≤ length s.now }
        ensures { result ≡ of_bytes s.now };

    // Its bytes, at the start of what is lent.
    fn put(self, o: &mut [u8])
        requires { LENGTH ≤ length o.old }
        ensures { o.new ≡ image self ++ drop LENGTH o.old };

    ghost long: { (x : Self) → length (image x) ≡ LENGTH };
}

// The entries from the start of a slice on, into all of the places that are lent.
pub(crate) fn read_all<T: Entry>(s: &[u8], entries: &mut [T])
    requires { T.LENGTH * length entries.old ≤ length s.now }
    ensures { entries.new ≡ entries_of T.of_bytes T.LENGTH (length entries.old) s.now }
{
    for (j, entry) in entries.iter_mut().enumerate() {
        *entry = T::read(&s[T::LENGTH * j..]);
    }
}

// The entries' bytes, at the start of what is lent.
pub(crate) fn put_all<T: Entry, const N: usize>(o: &mut [u8], entries: &[T; N])
    requires { T.LENGTH * N ≤ length o.old }
    ensures { o.new ≡ entries_bytes T.image entries.now ++ drop (T.LENGTH * N) o.old }
{
    // Each entry is put through a part that starts where it stands, as a record's parties are.
    for (j, entry) in entries.iter().enumerate() {
        entry.put(&mut o[T::LENGTH * j..]);
    }
}
