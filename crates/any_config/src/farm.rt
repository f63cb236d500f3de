//! The farm: what the dispatcher does for a site.
use glob_rules::{Glob, RuleList};
use regex_rules::Pattern;
use sp_base::{Items, TextBuf};

/// A host that is served (RFC 9110, section 4.2.1).
#[derive(Drop)]
pub struct VirtualHost {
    /// The glob for the host in lower case, without its port.
    pub name: Glob,
    /// The port, any where there is none.
    pub port: Option<u16>,
}

pub type HostList = Items<VirtualHost>;

/// What an entry of the filter asks of a part of a request.
#[derive(Drop)]
pub enum Test {
    /// That a glob matches the whole of it.
    Glob(Glob),
    /// That the whole of it is in the language of a regular expression, which the file writes in single quotes.
    Pattern(Pattern),
}

/// An entry of the filter. It applies to a request where each test that it has holds for its part of the request.
#[derive(Drop)]
pub struct Filter {
    pub allow: bool,
    pub request_line: Option<Test>,
    pub method: Option<Test>,
    /// The decoded path text.
    pub url: Option<Test>,
    /// The path text before its first dot.
    pub path: Option<Test>,
    /// The selectors, with a dot between two.
    pub selectors: Option<Test>,
    pub extension: Option<Test>,
    pub suffix: Option<Test>,
    /// The query, empty where there is none.
    pub query: Option<Test>,
}

pub type FilterList = Items<Filter>;

/// What the dispatcher does for a site.
#[derive(Drop)]
pub struct Farm {
    /// The hosts that are served (`/virtualhosts`).
    pub hosts: HostList,
    /// The host that the publisher is asked at: the first of the served ones where that is a name, else `localhost`.
    pub ask_host: TextBuf,
    /// The port of that host, 80 where it has none.
    pub ask_port: u16,
    /// Which requests the filter allows (`/filter`).
    pub filter: FilterList,
    /// How deep .stat files lie (`/statfileslevel`), at most 32.
    pub level: usize,
    /// Whether pages that were asked for with an Authorization header are kept (`/allowAuthorized`).
    pub authorized: bool,
    /// Which pages are kept (`/rules`).
    pub rules: RuleList,
    /// Which pages an invalidation outdates by .stat files (`/invalidate`).
    pub auto: RuleList,
    /// Who may invalidate (`/allowedClients`).
    pub clients: RuleList,
    /// Which parameters of a query change nothing (`/ignoreUrlParams`).
    pub ignored: RuleList,
}
