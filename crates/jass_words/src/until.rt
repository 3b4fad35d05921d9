/// How far a query is searched.
#[derive(Clone, Copy, Debug, PartialEq, Eq)]
pub enum Until {
    /// As far as its budgets go.
    Budget,
    /// As far as its budgets go, and no further than until no gains can change its answer.
    Final,
}
