// What a site tells an elector.

/// Last_Elected of a site, as the site told it.
#[derive(Clone, Copy)]
pub struct Named {
    pub site: u32,
    pub elected: u32,
}
