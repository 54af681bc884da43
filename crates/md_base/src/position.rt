//! The indices at which a node starts and ends.

ghost use Rattle.std.specs.Prelude.{◌≡◌};

use crate::event::Position;

impl Position {
    /// Returns the indices of the two points, whatever their columns of tabs are.
    ///
    /// # Examples
    ///
    /// ```
    /// let start = Point { line: 1, column: 3, index: 0, vs: 2 };
    /// let end = Point { line: 1, column: 8, index: 2, vs: 3 };
    /// assert_eq!(Position { start, end }.to_indices(), (0, 2));
    /// ```
    pub fn to_indices(&self) -> (usize, usize)
        ensures start { result.0 ≡ self.now.start.index }
        ensures end { result.1 ≡ self.now.end.index }
    {
        (self.start.index, self.end.index)
    }
}
