// The roles of handsets in the communities of a site. The definitions are in specs/, their laws in proofs/.
#![tactic(auto)]

#[derive(Clone, Copy)]
pub enum Role {
    Core(usize),
    Border(usize),
    Outlier,
}

#[derive(Clone, Copy)]
pub struct Standing {
    pub neighbours: u32,
    pub role: Role,
}
