// The two views of a log.
#[derive(Clone, Copy)]
pub enum View {
    // A node is shown if it or some node below it is unmarked.
    Keeping,
    // A node is shown if neither it nor any node above it is marked.
    Skipping,
}
